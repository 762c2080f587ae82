// Laws of the parts of objects under construction: who waits for a constructor takes them over.
#![tactic(auto)]

pub mod laws;
