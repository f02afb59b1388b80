// Writing a settings store (document 02, A7 and A12): settings by value as text in a lent slice. The calls are
// `write_form1`, `write_form2` and `write_store` of saving. A caller cites `text_of` and `list_number` of settings_text,
// `records_in` and `number_as` of entries, and `Saves` of specs/Saving.

#![tactic(auto)]

pub mod saving;
pub mod writing;
