// The text of journals: written from entries, and read back.
#![tactic(auto)]

mod fields;
mod form;
mod line;
mod number;
mod read;
mod types;
mod word;
mod write;

pub use form::version;
pub use read::{JournalFault, read_journal};
pub use write::{append_journal, write_entry, write_journal};
