//! The desk: what it keeps, the files of it with what they say of a module, and what each request
//! is answered.
#![tactic(auto)]

mod desk;
mod judge;
pub mod law;
mod next;
mod reach;
mod replies;
mod report;
mod serve;
mod service;
mod start;

pub use desk::Desk;
pub use report::TopReport;
pub use start::StartFault;
