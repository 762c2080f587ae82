// What a read takes of the input.
#![tactic(auto)]

pub mod reading;
