// Laws of what programs call: each is a function whose contract is the law.
#![tactic(auto)]

pub mod laws;
