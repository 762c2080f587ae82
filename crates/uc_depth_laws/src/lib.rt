// Laws over how deep tasks are in objects.
#![tactic(auto)]

pub mod laws;
