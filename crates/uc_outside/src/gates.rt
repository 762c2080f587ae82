// What the rides of a run tell the outside.

/// Is told of rides, as by a test that waits for a second one.
pub trait Gate {
    /// Called as the first ride after a dispatch begins. `dispatches` is how many dispatches the
    /// calling worker has made.
    fn ride(&self, processor: u32, dispatches: u64);
}

/// The gate of the program: it does nothing.
#[derive(Clone, Copy, Debug, Default)]
pub struct OpenGate;

impl Gate for OpenGate {
    fn ride(&self, _processor: u32, _dispatches: u64) {}
}
