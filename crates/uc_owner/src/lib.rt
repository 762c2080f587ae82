// The rules on who owns what, on parameters, fields and what references are bound to.
#![tactic(auto)]

pub mod bind;
pub mod judge;
