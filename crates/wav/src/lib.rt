// RIFF WAVE files of one channel and 16 bits (document 02, A9): the 44-byte header, and samples in parts over lent slices.
// Callers cite `header_of` and `head_of` of specs/Header and `data_of` and `samples_of` of specs/Samples. That what is
// read and written again is the same bytes, in any even parts, stands in crate wav_files.

#![tactic(auto)]

pub mod header;
pub mod samples;
