// The top call of ucpp: words, texts, streams and gate in, output, journal and status out.
#![tactic(auto)]

mod decide;
mod endings;
mod printing;
mod program;
mod refusals;
pub mod rooms;
mod top;

pub use refusals::Refusal;
pub use top::{Outcome, run_words};
