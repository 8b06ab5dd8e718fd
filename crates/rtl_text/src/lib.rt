// The lexer: the tokens of a text, or the first fault in it.
#![tactic(auto)]

mod fault;
mod form;
mod front;
pub mod law;
mod lexer;
mod literal;
mod mark;
mod pragma;
mod run;

pub use fault::LexFault;
pub use lexer::lex;
pub use run::is_blank;
