// A store of files in memory that fails at the reads of some numbers.
ghost use Rattle.std.specs.Prelude.{◌≡◌, ◌↔◌, IfOk, IfErr, OnOk};
ghost use Rattle.uc_outside.specs.Reading.{KeepsFiles, ReadBytes, ReadFault};
ghost use Rattle.uc_outside.specs.Told.{files_of};
ghost use Rattle.uc_outside.specs.Memory.{store_of, next_call, ReadMustFail};

use crate::faults::StoreFault;
use crate::steady::SteadyStore;
use crate::stores::Store;
use std::alloc::Global;
use std::marker::Model;

/// A store of the files that it is made from, for tests of what a failed read leads to. Its reads
/// are numbered from 1, and those of listed numbers fail; a number that stands at the largest
/// `u64` stays there.
#[derive(Drop)]
pub struct MemStore {
    files: SteadyStore,
    reads: u64,
    fail: Vec<u64>,
}

impl Model for MemStore {
    ghost use Rattle.uc_outside.specs.Memory.{ListedStore, listed_store_code};

    ghost Value = { ListedStore };

    ghost coded = { listed_store_code };

    ghost view = { λ s. record { count = s.files.count; files = s.files.files; reads = s.reads; fails = s.fail.items } };
}

impl MemStore {
    /// The store of these files, as name and bytes, that fails at the reads of the numbers in
    /// `fail`; of a name that comes twice the first counts.
    pub fn new(files: Vec<(String, Vec<u8>)>, fail: Vec<u64>) -> MemStore
        ensures { result ≡ record {
          count = 0;
          files = files_of files.items;
          reads = 0;
          fails = fail.items;
        } }
    {
        MemStore {
            files: SteadyStore::new(files),
            reads: 0,
            fail,
        }
    }
}

impl Store for MemStore {
    ghost use Rattle.std.proofs.Common.{rules};

    ghost state = { store_of };

    fn faults(&self) -> u64 {
        self.files.faults()
    }

    fn read(&mut self, alloc: Global, name: &str, limit: u32) -> Result<Vec<u8>, StoreFault>
        ensures keeps { KeepsFiles (store_of self.old) (store_of self.new) }
        ensures ok { IfOk result (λ v. ReadBytes (store_of self.old)
            (store_of self.new) name.now limit v.items) }
        ensures err { IfErr result
            (ReadFault (store_of self.old) (store_of self.new) name.now limit) }
        ensures numbered { self.new.reads ≡ next_call self.old.reads }
        ensures same_list { self.new.fails ≡ self.old.fails }

        // It fails exactly where its number is listed or there is no such name.
        ensures failed { IfErr result
            (λ e. (e ≡ StoreFault.Failed) ↔ ReadMustFail self.old name.now) }
        ensures well { OnOk result (ReadMustFail self.old name.now → ⊥) }
    {
        self.reads = self.reads.saturating_add(1);
        if self.fail.contains(&self.reads) {
            return Err(self.files.refuse());
        }
        self.files.read(alloc, name, limit)
    }

    ghost steady_tells = { λ s. Prim.search rules };
}
