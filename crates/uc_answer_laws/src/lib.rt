// That each task is answered in the form that its request asks for.
#![tactic(auto)]

pub mod laws;
