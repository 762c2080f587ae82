// Laws of the resolved trees of programs that break no rule.
#![tactic(auto)]

pub mod laws;
