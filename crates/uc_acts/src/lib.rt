// What a kernel does: the filters of a journal, acts, runs of a kernel and their laws, what a read takes, and the texts of entries.
#![tactic(auto)]

pub mod field;
pub mod got;
pub mod laws;
pub mod samples;
