// Laws over what is lent to mutex objects: what their references are bound to.
#![tactic(auto)]

pub mod laws;
