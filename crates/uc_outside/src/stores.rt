// What a store is.
ghost use Rattle.std.specs.Prelude.{◌≡◌, IfOk, IfErr};
ghost use Rattle.uc_outside.specs.Reading.{StoreState, SteadyTells, KeepsFiles, ReadBytes, ReadFault};

use crate::faults::StoreFault;
use std::alloc::Global;

/// Gives the bytes of names.
///
/// Contracts see a store as its `state`: the count of its failed reads, its files where it tells
/// them, and whether it is steady. A steady store tells its files and fails for no other reason
/// than a name that it does not have.
pub trait Store {
    ghost state: { Self → StoreState };

    /// How many reads have failed. At the largest `u64` the count stands still.
    fn faults(&self) -> u64
        ensures { result ≡ (state self.now).count };

    /// Reads the bytes of a name, at most `limit` of them.
    fn read(&mut self, alloc: Global, name: &str, limit: u32) -> Result<Vec<u8>, StoreFault>
        ensures keeps { KeepsFiles (state self.old) (state self.new) }
        ensures ok { IfOk result (λ v. ReadBytes (state self.old)
            (state self.new) name.now limit v.items) }
        ensures err { IfErr result (ReadFault (state self.old) (state self.new) name.now limit) };

    ghost steady_tells: { (store : Self) → SteadyTells (state store) };
}
