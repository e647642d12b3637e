use std::alloc::Global;
use std::process::Abort;
use test_tables::{Calls, Told, failed_rows};

/// Asserts that nothing is told.
pub fn none_fails(rt: &impl Abort, told: &Told) {
    assert_eq!(rt; told.shown(), "");
}

/// Asserts that each row of a table has the answer that it says.
pub fn all_hold<C: Calls>(
    rt: &impl Abort,
    alloc: Global,
    calls: &mut C,
    lines: &[u8],
    table: &[u8],
) {
    none_fails(rt, &failed_rows(alloc, calls, lines, table));
}
