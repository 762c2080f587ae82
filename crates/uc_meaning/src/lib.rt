// What programs mean: the runs of a program, their cuts into acts, and samples. What they are told in is given out again.
#![tactic(auto)]

pub mod laws;
pub mod samples;

pub use uc_acts::{field, got};
pub use uc_entry::{entry, fault, list, request};
pub use uc_machine::exec;
pub use uc_rules::{checked, rule, rules};
