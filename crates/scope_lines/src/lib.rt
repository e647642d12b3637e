//! Scopes and lines: what is visible at an address, the line of an address, the addresses of a line. It stands on the body of a
//! unit alone; items are named by their places in it.
//!
//! The law that the layer above uses: each answer equals its definition in `specs/Scopes.antt` and `specs/Lines.antt`. What these say
//! in words of places and counts is the contract of `scope_laws` and `line_laws`. All walks are linear in the body.
#![tactic(auto)]

mod address;
mod behind;
mod law;
mod line;
mod nearest;
mod role;
mod scope;
mod unit_of;
mod walk;

pub use address::addresses;
pub use law::{line_laws, scope_laws};
pub use line::line_at;
pub use scope::{AddressOf, Block, LineAt, Scope, scope_at};
