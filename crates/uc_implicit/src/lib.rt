// The constructors and destructors that nobody wrote: which there are, in which order they stand, and their numbers.
#![tactic(auto)]

mod heights;
pub mod numbers;
pub mod unwritten;
