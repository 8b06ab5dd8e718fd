//! Which text spells which tree: the grammar of the language, and how deep trees are nested.
#![tactic(auto)]

pub mod nesting;
