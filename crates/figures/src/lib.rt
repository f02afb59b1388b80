// Document 01's bench figures T1 to T10, proved together: specs/Table has the table and the single statement over it,
// proofs/Figures the proof. There is no code here.

#![tactic(auto)]
