// Laws over the steps of a task: each is a function whose contract is the law.
#![tactic(auto)]

pub mod laws;
