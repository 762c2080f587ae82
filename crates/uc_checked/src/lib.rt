//! Programs that break no rule, with what was found out of them while the rules were checked.

#![tactic(auto)]

pub mod checked;
pub mod copies;
