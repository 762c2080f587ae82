// One pool of nodes, linked by raw pointers, that holds each object's entry queue and stack.
#![tactic(auto)]

mod chain;
mod object;
pub mod pool;
mod raw;
mod rows;
pub mod steps;

pub use pool::Links;
pub use rows::MEMBERS;
pub use steps::Steps;
