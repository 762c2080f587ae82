// Laws over marks: they are put for what is an execution's own.
#![tactic(auto)]

pub mod laws;
