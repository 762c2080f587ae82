// Laws over runs: what executions have of others stands in what those have.
#![tactic(auto)]

pub mod laws;
