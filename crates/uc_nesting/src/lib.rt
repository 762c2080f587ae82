// How deep the parts of a program's tree stand, and that what tokens spell within some levels stands within as many.
#![tactic(auto)]

pub mod laws;
pub mod samples;
