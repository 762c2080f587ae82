// Laws over runs of programs: what a task lets go of is in its hand.
#![tactic(auto)]

pub mod laws;
