// Laws of what is left to show of programs that break no rule: each is a function whose contract is the law.
#![tactic(auto)]

pub mod laws;
