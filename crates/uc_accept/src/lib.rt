// What an accept statement of a task does: the caller that it takes, or that it stays open.
#![tactic(auto)]

pub mod accepting;

pub use accepting::{Accepted, accept};
