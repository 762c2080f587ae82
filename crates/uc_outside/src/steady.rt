// A store of files in memory.
ghost use Rattle.std.specs.Prelude.{◌≡◌, ◌+◌, ◌≤◌, min, option_copied};
ghost use Rattle.uc_outside.specs.Faults.{count_limit};
ghost use Rattle.uc_outside.specs.Reading.{file_of};
ghost use Rattle.uc_outside.specs.Told.{files_of};

use crate::faults::StoreFault;
use crate::stores::Store;
use std::alloc::Global;
use std::marker::Model;

/// A steady store of the files that it is made from.
#[derive(Drop)]
pub struct SteadyStore {
    files: Vec<(String, Vec<u8>)>,
    faults: u64,
}

impl Model for SteadyStore {
    ghost use Rattle.uc_outside.specs.Told.{FileTable, table_code, files_of};

    ghost Value = { FileTable };

    ghost coded = { table_code };

    ghost view = { λ s. record { count = s.faults; files = files_of s.files.items } };
}

impl SteadyStore {
    /// The store of these files, as name and bytes; of a name that comes twice the first counts.
    pub fn new(files: Vec<(String, Vec<u8>)>) -> SteadyStore
        ensures { result ≡ record { count = 0; files = files_of files.items } }
    {
        SteadyStore { files, faults: 0 }
    }

    /// Counts one more failed read.
    pub(crate) fn refuse(&mut self) -> StoreFault
        ensures fault { result ≡ StoreFault.Failed }
        ensures count { self.new.count ≡ min (self.old.count + 1) count_limit }
        ensures never_falls { self.old.count ≤ self.new.count }
        ensures same_files { self.new.files ≡ self.old.files }
    {
        self.faults = self.faults.saturating_add(1);
        StoreFault::Failed
    }
}

/// The bytes of the first file of that name.
fn find_file<'a>(files: &'a [(String, Vec<u8>)], name: &str) -> Option<&'a [u8]>
    ensures { option_copied result ≡ file_of (files_of files.now) name.now }
{
    for file in files {
        if name == file.0.as_str() {
            return Some(file.1.as_slice());
        }
    }
    None
}

impl Store for SteadyStore {
    ghost use Rattle.std.specs.Prelude.{Some, true};
    ghost use Rattle.std.proofs.Common.{rules};

    ghost state = { λ s. record { count = s.count; told = Some s.files; steady = true } };

    fn faults(&self) -> u64 {
        self.faults
    }

    fn read(&mut self, alloc: Global, name: &str, limit: u32) -> Result<Vec<u8>, StoreFault> {
        match find_file(&self.files, name) {
            None => Err(self.refuse()),
            Some(bytes) => {
                if bytes.len() > limit as usize {
                    return Err(StoreFault::TooLong);
                }
                let copy = Vec::from_slice(alloc, bytes)?;
                Ok(copy)
            }
        }
    }

    ghost steady_tells = { λ s. Prim.search rules };
}
