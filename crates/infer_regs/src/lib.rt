//! Registers with their clocks and resets, as synthesis infers them; the form of one process that waits for edges; and the
//! inputs that are clocks or resets.
#![tactic(auto)]

mod broken;
mod clocked;
mod facts;
pub mod forms;
mod inputs;
mod tops;

pub use clocked::registers;
pub use forms::form_of;
pub use inputs::controls;

// Passed on to the crates above.
pub use net_list;
pub use net_list::{check_clocks, check_gates};
