//! Bodies of `always` as synthesis means them (IEEE 1364.1-2002 sections 5.1 to 5.3 and 6.1.1), run in
//! place. All memory is taken before.
#![tactic(auto)]

mod arms;
mod bits;
mod choices;
mod drives;
mod ends;
mod entries;
mod fills;
mod maps;
mod mark;
mod rooms;
mod statements;
mod writes;

pub use maps::Maps;
