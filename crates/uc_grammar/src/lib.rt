// The grammar of program texts as data: what tokens spell, how a reading of them fails, and the laws of both.
#![tactic(auto)]

pub mod fault;
pub mod laws;
pub mod level;
pub mod samples;
pub mod start;
