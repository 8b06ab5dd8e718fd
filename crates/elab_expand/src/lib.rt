//! What the generate constructs of a module make in an instance: items, with the names of their blocks before those that the blocks
//! declare.
#![tactic(auto)]

pub mod block;
pub(crate) mod cases;
pub(crate) mod constructs;
pub(crate) mod lifting;
pub mod loops;
pub(crate) mod placing;
pub mod scopes;
pub mod tally;
pub mod told;
pub mod whole;
