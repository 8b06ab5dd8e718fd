//! What the instances of a module say: the modules that they name, the parameters that they set, and their connections.
#![tactic(auto)]

pub mod connections;
pub mod drivable;
pub mod groups;
pub mod instances;
pub mod marks;
pub mod module_set;
pub mod parameters;
pub mod ports;

// Passed on to the crates above.
pub use elab_items;
pub use elab_items::elab_scope;
