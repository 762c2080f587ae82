// That runs of accepted programs stay in order.
#![tactic(auto)]

pub mod laws;
