// The programs' text on lent bytes: decimal numbers, words in hex digits, parts between separators, bytes compared and
// bytes put into a buffer. Callers cite `bytes`, `tab` and `newline` of specs/Letters, `number_of`, `capped` and
// `decimal_of` of specs/Numbers, `number_in` and `numbers_in` of specs/Ranges, `hex_digit` and `pattern_of` of specs/Hex,
// `parted`, `joined_by` and `end_of` of specs/Parts, `same` of specs/Same, `precedes` of specs/Order and `Puts` of
// specs/Writing; proofs/ has their laws.

#![tactic(auto)]

pub mod comparing;
pub mod hex;
pub mod numbers;
pub mod parts;
pub mod writing;
