use std::alloc::Global;
use std::process::Abort;
use test_tables::{Calls, failed_rows};

/// Asserts that each row of a table has the answer that it says.
pub fn all_hold<C: Calls>(
    rt: &impl Abort,
    alloc: Global,
    calls: &mut C,
    lines: &[u8],
    table: &[u8],
) {
    let told = failed_rows(alloc, calls, lines, table);
    assert_eq!(rt; told.shown(), "");
}
