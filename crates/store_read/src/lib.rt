// Reading a settings store (document 02, A7 and A12): its text into settings by value. The calls are `read_form1`,
// `read_form2`, `read_store` and `form_of` of reading. A caller cites `read_of` of settings_text and `found` of specs/Reading.

#![tactic(auto)]

mod cutting;
pub mod line;
pub mod reading;
