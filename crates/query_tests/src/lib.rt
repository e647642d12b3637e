//! The tests of units, header ranges, types, scopes, lines and replies: entries, and what is asked of them, through the calls that a program makes
//! and those that stand behind them. It stands on the crates under test, and gives nothing.
//!
//! Rows are lines of a table; `table.rt` says how they are written, and plays them. Their answers are worked by hand from the formats.
#![tactic(auto)]

#[cfg(test)]
mod answers;
#[cfg(test)]
mod entries;
#[cfg(test)]
mod head;
#[cfg(test)]
mod outlines;
#[cfg(test)]
mod outlines_tests;
#[cfg(test)]
mod ranges;
#[cfg(test)]
mod ranges_tests;
#[cfg(test)]
mod table;
#[cfg(test)]
mod types;
#[cfg(test)]
mod worlds_tests;
