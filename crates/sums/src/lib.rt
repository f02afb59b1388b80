// The decimator and interpolator of document 01 over words of any kind, and what is proved of them once for every
// word, order, delay and rate. There is no code here: specs/ has the rules and the statements, proofs/ the proofs.
//
// A promise cites specs/State, specs/Calls and specs/Runs. What follows from them, also after a pulled plug, stands
// in specs/Demands. Contracts of private functions over lent arrays cite proofs/Lent, which no promise does.

#![tactic(auto)]
