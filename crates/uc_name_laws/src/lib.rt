// Laws of names of executions: each is a function whose contract is the law.
#![tactic(auto)]

pub mod laws;
