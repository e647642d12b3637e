//! The items of a source in a subset of C: includes, typedefs, bodies with a tag, variables and functions, as trees with their tokens; where
//! an item ends; and the walk over its tokens that says of each what it is there. It stands on `c_tokens`. Items may nest to any depth: no
//! function here recurs, and none takes memory.
//!
//! The law that the layer above uses: `item_end` finds the end of the item in front exactly where one stands there, and `walk` hands an
//! actor the acts of that item, `item_acts` of `specs/Acts.antt`, in their order.
#![tactic(auto)]

mod acting;
mod declarators;
mod ending;
mod functions;
mod laws;
mod role;
mod specifiers;
mod state;
mod stepping;

pub use acting::{Actor, walk};
pub use ending::item_end;
pub use laws::item_laws;
pub use role::Role;
