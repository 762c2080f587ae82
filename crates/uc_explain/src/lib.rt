// Readers of journals: what stands at the mutex objects entry by entry, and its text.
#![tactic(auto)]

mod door;
mod effects;
mod explaining;
mod lists;
pub mod samples;
mod text;
pub mod views;

pub use explaining::explain;
pub use views::Views;
