//! What each command comes to over the bytes of files, up to its outcome: how its inputs are loaded, the status and the text of the reply,
//! and the content to store. It stands on files, on command lines, and on the crates that decode, assemble, query and link objects.
//!
//! The law that the layers above use: words have exactly one outcome over files that hold bytes (`Replies.IsOutcome`, `one_outcome`,
//! `an_outcome`), and linking and asking an accepted list are done, with the image of that list (`ListImages`, `linking_laws`).
#![tactic(auto)]

mod answer;
mod ask;
mod assemble;
mod check;
mod dump;
mod inputs;
mod laws;
mod link;
mod list;
mod objects;
mod outcome;
mod query;
mod reading;

pub use answer::reply;
pub use inputs::{Cause, Inputs, load_all};
pub use laws::{an_outcome, linking_laws, one_outcome, statuses_are};
pub use outcome::{
    ABSENT, Content, DONE, LIMIT, LIST_REFUSED, NO_MEMORY, Outcome, READ_FAULT, REFUSED, USAGE,
    WRITE_FAULT, usage,
};
