// The recorder: an encoder's phase words followed over their turns and decimated with words of 64 bits, through a plug that
// is pulled and pushed back, changes of rate, and states saved as text.
// Callers cite `Calls` of specs for what each call gives, and `AfterPush` and its sisters of specs/Traces for what the
// outputs are.

#![tactic(auto)]

pub mod recorder;
