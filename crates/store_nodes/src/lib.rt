//! The marks of the nodes of a store's tree for one minute at the source: to which stations a node has an arc then, and
//! with which it goes on.
#![tactic(auto)]

mod families;
mod nodes;

pub use families::mark_nodes;
