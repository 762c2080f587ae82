// The store of the file system.
ghost use Rattle.std.specs.Prelude.{◌≡◌, ◌≢◌, ◌+◌, ◌<◌, ◌≤◌, IfOk, IfErr, is_ok, false, length, vec_len};
ghost use Rattle.std.specs.Io.KnownBytes.{IsAtEnd};
ghost use Rattle.uc_outside.specs.Limited.{TakesAtMost, GaveAll, GaveFault, AppendsPiece};

use crate::faults::StoreFault;
use crate::stores::Store;
use std::alloc::Global;
use std::fs;
use std::io::{ErrorKind, Read};
use std::marker::Model;
use std::rt::Files;

/// How many bytes one read of a file asks for.
const PIECE: usize = 4096;

/// The files of a runtime, by their paths. It tells none of their bytes.
#[derive(Drop)]
pub struct FileStore<'a, R> {
    rt: &'a R,
    faults: u64,
}

impl<'a, R> Model for FileStore<'a, R> {
    ghost use Rattle.std.specs.Prelude.{ℕ};

    ghost Value = { ℕ };

    ghost view = { λ s. s.faults };
}

impl<'a, R: Files> FileStore<'a, R> {
    /// A store of the files of this runtime, with no failed read so far.
    pub fn new(rt: &'a R) -> FileStore<'a, R>
        ensures { result ≡ 0 }
    {
        FileStore { rt, faults: 0 }
    }
}

impl<'a, R: Files> Store for FileStore<'a, R> {
    ghost use Rattle.std.specs.Prelude.{None, false};
    ghost use Rattle.std.proofs.Common.{rules};

    ghost state = { λ s. record { count = s; told = None; steady = false } };

    fn faults(&self) -> u64 {
        self.faults
    }

    fn read(&mut self, alloc: Global, name: &str, limit: u32) -> Result<Vec<u8>, StoreFault> {
        let answer = read_file(self.rt, alloc, name, limit);
        if let Err(StoreFault::Failed) = answer {
            self.faults = self.faults.saturating_add(1);
        }
        answer
    }

    ghost steady_tells = { λ s. Prim.search rules };
}

/// Opens a file and reads it.
fn read_file<R: Files>(rt: &R, alloc: Global, name: &str, limit: u32) -> Result<Vec<u8>, StoreFault>
    ensures { IfOk result (λ v. vec_len v ≤ limit) }
{
    let Ok(mut file) = fs::open(rt, name) else {
        return Err(StoreFault::Failed);
    };
    let bytes = read_limited(alloc, &mut file, limit)?;
    Ok(bytes)
}

// Reads all that a reader has left, at most `limit` bytes, and takes at most one byte more.
//
// `Failed` says that the reader failed, or was interrupted 2^64 times. A reader has no count of faults, so no clause
// here gives that its cause; `FileStore` counts it.
fn read_limited<R: Read>(alloc: Global, reader: &mut R, limit: u32) -> Result<Vec<u8>, StoreFault>
    ensures within { IfOk result (λ v. vec_len v ≤ limit) }
    ensures all { IfOk result (λ v. GaveAll (R.remaining reader.old) v.items) }
    ensures fault { IfErr result (GaveFault (R.remaining reader.old) limit) }
    ensures takes { TakesAtMost (R.remaining reader.old) (R.remaining reader.new) (limit + 1) }
{
    let most = limit as usize + 1;
    let mut bytes = Vec::new(alloc);
    let mut piece = [0u8; PIECE];
    'pieces: for _ in 0..u64::MAX {
        let ask = PIECE.min(most - bytes.len());
        if !append_piece(reader, &mut piece[..ask], &mut bytes)? {
            return Ok(bytes);
        }
        if bytes.len() == most {
            return Err(StoreFault::TooLong);
        }
    }
    Err(StoreFault::Failed)
}

/// Appends what one read gives, and answers false at the reader's end.
fn append_piece<R: Read>(
    reader: &mut R,
    piece: &mut [u8],
    bytes: &mut Vec<u8>,
) -> Result<bool, StoreFault>
    requires { 0 < length piece.old }
    ensures takes { AppendsPiece (R.remaining reader.old) (R.remaining reader.new)
        (length piece.old) bytes.old.items bytes.new.items (is_ok result) }
    ensures end { result ≡ Ok false → IsAtEnd (R.remaining reader.new) }
    ensures end_stays { result ≡ Ok false → bytes.new.items ≡ bytes.old.items }
    ensures not_long { IfErr result (λ e. e ≢ StoreFault.TooLong) }
{
    match reader.read(piece) {
        Ok(0) => Ok(false),
        Ok(n) => {
            bytes.extend_from_slice(&piece[..n])?;
            Ok(true)
        }
        Err(e) => {
            if e.kind() == ErrorKind::Interrupted {
                Ok(true)
            } else {
                Err(StoreFault::Failed)
            }
        }
    }
}
