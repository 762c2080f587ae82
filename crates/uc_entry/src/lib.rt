// The plain types in which runs are told: entries, options, requests, answers, run faults, and lists with room.
#![tactic(auto)]

pub mod entry;
pub mod fault;
pub mod list;
pub mod request;
