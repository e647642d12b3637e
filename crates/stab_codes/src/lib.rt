//! The stab codes of C: their names, the segments that the values of stabs move with, and which codes carry a symbol.
//! It takes no memory, and knows nothing of files or of the strings of stabs.
//!
//! The law that the layers above use: the look-ups by code and by name are inverse to each other, over one table in
//! which no code and no name stands twice.
#![tactic(auto)]

mod code;
mod laws;
mod segment;
mod table;

pub use code::{
    N_BINCL, N_EINCL, N_EXCL, N_FUN, N_GSYM, N_LBRAC, N_LCSYM, N_LSYM, N_MAIN, N_OPT, N_PSYM,
    N_RBRAC, N_ROSYM, N_RSYM, N_SLINE, N_SO, N_SOL, N_STSYM,
};
pub use laws::codes_are;
pub use segment::{Segment, segment_of};
pub use table::{carries_symbol, code_name, code_of, table_laws};
