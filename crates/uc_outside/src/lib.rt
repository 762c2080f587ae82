// The program's whole view of the outside: stores that give the bytes of names, sinks that take
// bytes, the gate, what their faults mean, and the few lines over files and standard streams.
#![tactic(auto)]

mod faults;
mod files;
mod fixed;
mod gates;
mod laws;
mod mem_sink;
mod mem_store;
mod sinks;
mod steady;
mod stores;
mod streams;

pub use faults::{SinkFault, StoreFault};
pub use files::FileStore;
pub use fixed::FixedSink;
pub use gates::{Gate, OpenGate};
pub use laws::{law_file_is_read, law_puts_add_up, law_room_holds};
pub use mem_sink::MemSink;
pub use mem_store::MemStore;
pub use sinks::{Sink, put_all};
pub use steady::SteadyStore;
pub use stores::Store;
pub use streams::{ErrorStream, StdErr, StdOut};
