// The text of a settings store (document 02, A7 and A12): definitions and laws, and the form's enum. A caller cites `read_of`, `text_of`
// and `list_number` of specs/Stores, which hold for any `Form`; specs/Lines has the records and the two forms, specs/Moves
// the moves between them, specs/Laws what is proved of any lawful form.

#![tactic(auto)]

pub mod version;
