// What the exports of the decimator and interpolator to C have in common, on any word: the caller keeps the filter and lends it field by field.
// specs/Calls says what each call leaves and answers, in the words of the call of the same name on a `Cic`; `parts` puts a filter together of its
// fields and back, and proofs/Handed hands a call's promise on. The crates capi_cic and capi_cic64 export the calls.

#![tactic(auto)]

pub mod parts;
