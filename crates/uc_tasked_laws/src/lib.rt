// Laws over tasks: which objects of tasks are of no task yet.
#![tactic(auto)]

pub mod laws;
