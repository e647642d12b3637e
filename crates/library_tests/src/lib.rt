//! The tests of the public calls of the libraries below the stab strings, from bytes to whole files and to what stands outside, in one
//! crate at the top, so that each library is proved once and not twice. It stands on all of them, and gives nothing.
//!
//! Each library has a table: a row makes a call and says its answer, worked by hand from the formats. What a row may write and
//! how it is compared is told in `test_tables`. The tests of stab codes and stab strings are those of `grammar_tests`.
#![tactic(auto)]

#[cfg(test)]
mod aout_layout_tests;
#[cfg(test)]
mod aout_object_tests;
#[cfg(test)]
mod changes;
#[cfg(test)]
mod holds;
#[cfg(test)]
mod nlist_codec_tests;
#[cfg(test)]
mod outside_tests;
#[cfg(test)]
mod readers_tests;
#[cfg(test)]
mod reloc_tests;
#[cfg(test)]
mod st_base_tests;
#[cfg(test)]
mod strtab_tests;
