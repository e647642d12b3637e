//! The tests of linking: sources are assembled and linked, and the image is looked at by its assembly. It stands on the crates under
//! test, and gives nothing.
#![tactic(auto)]

#[cfg(test)]
mod table;
#[cfg(test)]
mod tests;
