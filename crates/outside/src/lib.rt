//! What a program takes from outside and hands out: files by their names, and a sink for what it prints.
//! Each is a trait whose clauses say what an answer means and when a failure may come; the program above
//! is proved against the traits alone, and is run over memory or over the files of a runtime.
//!
//! It stands on st_base. The law that the layers above use: `Failed` comes only where a count rose.
//!
//! Files and sinks in memory tell all that they hold. `DiskFiles` and `StreamSink` are the trusted edge: no
//! clause says which bytes lie on the disk, and what a writer took is said only where the writer tells it.
#![tactic(auto)]

mod call;
mod disk_files;
mod files;
mod held_file;
mod memory_files;
mod memory_sink;
mod sink;
mod stream_sink;
mod sure_files;
mod sure_sink;
#[cfg(test)]
mod tests;
mod transfer;

pub use call::Access;
pub use disk_files::DiskFiles;
pub use files::{Files, Loaded, Stored};
pub use memory_files::MemoryFiles;
pub use memory_sink::MemorySink;
pub use sink::{Put, Sink};
pub use stream_sink::StreamSink;
pub use sure_files::SureFiles;
pub use sure_sink::SureSink;
