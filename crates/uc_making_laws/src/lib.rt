// Laws of who builds and destroys objects: each is a function whose contract is the law.
#![tactic(auto)]

pub mod laws;
