// The words of a command line: the job that they ask for, or the first word at fault.
#![tactic(auto)]

mod commands;
mod job;
mod number;
mod numbers;
mod pieces;
mod told;
mod words;

pub use job::{Job, WordsFault};
pub use words::read_words;
