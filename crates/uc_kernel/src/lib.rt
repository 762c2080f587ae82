// The kernel with the task values and the members that it keeps.
#![tactic(auto)]

pub mod asks;
pub mod given;
mod hand;
pub mod kernel;
mod rests;
