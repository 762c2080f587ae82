// Class heads with a base, and `virtual`, taken out of the tokens of a text and noted.
#![tactic(auto)]

pub mod head;
pub mod laws;
pub mod opening;
pub mod peek;
pub mod samples;
