// Laws over what programs name when they ask: accept statements with their masks, and members.
#![tactic(auto)]

pub mod laws;
