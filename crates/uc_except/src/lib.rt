// Events: which handler an event finds, and how handlers begin.
#![tactic(auto)]

pub mod found;
pub mod handling;
pub mod seeking;
