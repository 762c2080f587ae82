// Laws over what the tasks of a program ask in its runs.
#![tactic(auto)]

pub mod laws;
