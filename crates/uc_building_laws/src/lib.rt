// Laws over objects that are built: what a constructor leaves.
#![tactic(auto)]

pub mod laws;
