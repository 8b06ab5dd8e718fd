//! What synthesis means by a flat design (IEEE 1364.1-2002): numbers, functions of bodies, equations between them, and
//! registers that change at edges.
#![tactic(auto)]

pub mod fill;
