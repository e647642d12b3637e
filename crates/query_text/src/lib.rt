//! Queries and replies: the words of a query, and the text of the reply on a world. It stands on the listings of `type_graph` and on
//! the scopes and lines of `scope_lines`. Which word of a line is not what its place wants is answered for any line (`Wanted`, `wrong_place`).
//!
//! The laws that the layers above use: words ask the one query that they spell, or have one wrong place and spell none (`asking_law`), and
//! a query has exactly one reply on a world (`Replies.Answers`, `one_reply`, `a_reply`).
#![tactic(auto)]

mod address;
mod external;
mod laws;
mod line_text;
mod listed;
mod places;
mod query;
mod read;
mod reply;
mod scope_text;
mod units;
mod vars;
mod want;

pub use address::address_of;
pub use laws::{a_reply, asking_law, limits_are, one_reply};
pub use places::{Wanted, is_text, wrong_place};
pub use query::Query;
pub use read::read_query;
pub use reply::reply_text;
