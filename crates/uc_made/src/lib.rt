// The law that each generated program is accepted.
#![tactic(auto)]

pub mod laws;
