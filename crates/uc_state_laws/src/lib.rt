// Laws over the states of tasks and over runs of programs, none of which needs to know what lives: what
// fits, hands, cells of what is declared, values known by numbers, events, addresses.
#![tactic(auto)]

pub mod address;
pub mod event;
pub mod hand;
pub mod program;
pub mod scope;
pub mod value;
