// Files as the store of the file system reads them, and the error stream.

use std::alloc::{AllocError, Global};
use std::rt::Files;
use uc_outside::{ErrorStream, FileStore, Sink, StdErr, Store, StoreFault, put_all};

/// What a read of a file gives: its bytes or the fault, and the store's count of faults.
pub(crate) fn answer<R: Files>(rt: &R, alloc: Global, line: &str) -> Result<String, AllocError> {
    let (name, limit) = match line.split_once(' ') {
        Some((name, limit)) => (name, limit.parse::<u32>().unwrap_or(0)),
        None => (line, 0),
    };
    let mut store = FileStore::new(rt);
    let text = match store.read(alloc, name, limit) {
        Ok(bytes) => String::from_utf8_lossy(alloc, bytes.as_slice())?,
        Err(StoreFault::Failed) => String::from_str(alloc, "failed")?,
        Err(StoreFault::TooLong) => String::from_str(alloc, "too long")?,
        Err(StoreFault::NoMemory) => return Err(AllocError),
    };
    format!(in alloc; "-- {line}\n{text}\nfaults {}\n", store.faults())
}

/// Whether a text went to the error stream, and the sink's count of faults.
pub(crate) fn told<R: ErrorStream>(
    rt: &R,
    alloc: Global,
    text: &str,
) -> Result<String, AllocError> {
    let mut err = StdErr::new(rt);
    let went_well = put_all(&mut err, text.as_bytes()).is_ok();
    format!(in alloc; "!! {text}\n{went_well}\nfaults {}\n", err.faults())
}
