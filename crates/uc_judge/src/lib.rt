// Whether a journal is a run of tasks that ask.
#![tactic(auto)]

pub mod accepts;
mod acting;
pub mod actor;
pub mod asks;
pub mod busy;
pub mod comparing;
pub mod counts;
mod effects;
pub mod judging;
pub mod laws;
pub mod ledger;
pub mod offers;
pub mod pending;
pub mod processors;
pub mod samples;
pub mod schedule;
pub mod script;
mod serving;
pub mod stacks;
mod taking;
pub mod tasks;
pub mod telling;
pub mod verdict;
