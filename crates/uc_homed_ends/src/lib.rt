// What is read where mutex objects end is at home there.
#![tactic(auto)]

pub mod laws;
