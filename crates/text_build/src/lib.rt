// Builds the trees of a text, which has been surveyed or which is shown afterwards to spell what was read of it: which texts
// need no survey is told here, too.
#![tactic(auto)]

mod attributes;
mod cursor;
mod declarations;
mod expression;
mod fault;
mod gates;
mod generate;
mod instances;
pub mod law;
mod modules;
mod operators;
mod ordinary;
mod processes;
mod proper;
mod reference;
mod regions;
mod run;
mod statements;
mod targets;
mod whole;

pub use fault::BuildFault;
pub use ordinary::is_ordinary;
pub use proper::are_proper;
pub use whole::{build, spelled_once};
