// What the modulator of crate dsm does over a run of its calls: what goes in and comes out (specs/Totals), that both ends
// of its range are reached (specs/Ends), and the noise as an equation with a bound (specs/Shaping: 02, A14). specs/Settled
// has what the promises of its calls settle. There is no code here, so an edit of a statement costs seconds.

#![tactic(auto)]
