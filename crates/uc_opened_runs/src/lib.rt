// Laws over runs of programs within their limits: all is known, where of scopes only those of plain objects are asked.
#![tactic(auto)]

pub mod laws;
