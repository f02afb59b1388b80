// A store of settings moved from one form to the other (document 02, A12): `move_forth` and `move_back` of moving, over lent
// slices. A caller cites `forth` and `back` of settings_text and `Moves` of specs/Moving. What holds of reading and writing
// together (A7) stands in the crate store_laws.

#![tactic(auto)]

pub mod moving;
