// Laws that who waits in an object is inside it.
#![tactic(auto)]

pub mod laws;
