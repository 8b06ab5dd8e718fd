// Verilog modules as trees, with one variant for each alternative of the grammar.
//
// A place is a byte offset in the text of the file. The place of a binary operator or of `?:` is that of its operator
// mark; the place of any other part is that of its first token after its attributes.

pub mod expr;
pub mod gate;
pub mod item;
pub mod modules;
pub mod names;
pub mod operators;
pub mod stmt;
pub mod written;
