// Laws over cells: of which thing each is, and what those hold in which mutex objects are bound.
#![tactic(auto)]

pub mod laws;
