//! What serves requests over the tables that a keeper holds.
#![tactic(auto)]

mod service;

pub use service::Service;
