//! The tests of the public calls of the libraries of stab codes and stab strings, in one crate at the top, so that each library is proved
//! once and not twice. It stands on both, and gives nothing.
//!
//! Each library has a table: a row makes a call and says its answer, worked by hand from the formats. What a row may write and
//! how it is compared is told in `test_tables`, and for stab strings with a mark under each in `stab_strings.rt`.
#![tactic(auto)]

#[cfg(test)]
mod holds;
#[cfg(test)]
mod nested_strings_tests;
#[cfg(test)]
mod stab_codes_tests;
#[cfg(test)]
mod stab_grammar_tests;
#[cfg(test)]
mod stab_strings;
#[cfg(test)]
mod stab_strings_tests;
#[cfg(test)]
mod trees;
#[cfg(test)]
mod walks_tests;
