//! Sets of processors, as the bits of a word.
ghost use Rattle.std.specs.Prelude.{◌≡◌, ◌<◌, ◌≤◌, ◌==◌, ◌&&◌, ◌||◌, ℕ, true, false, not, nat_lt, IfSome, IfNone, if◌then◌else◌};
ghost use Rattle.uc_cluster.specs.ProcessorSet.{has, no_set};

/// A set of processors, which are numbered below 64.
#[derive(Clone, Copy)]
pub struct ProcessorSet {
    pub(crate) bits: u64,
}

impl ProcessorSet {
    /// No processor.
    pub fn empty() -> ProcessorSet
        ensures { result ≡ no_set }
    {
        ProcessorSet { bits: 0 }
    }

    /// As many processors, from 0 on.
    pub fn first(count: u32) -> ProcessorSet
        requires { (1 ≤ count) × (count ≤ 64) }
        ensures { (p : ℕ) → has result p ≡ nat_lt p count }
    {
        ProcessorSet {
            bits: u64::MAX >> (64 - count),
        }
    }

    /// The same, but that a processor is in the set, or is not.
    pub fn set(self, processor: u32, is_in: bool) -> ProcessorSet
        requires { processor < 64 }
        ensures { (p : ℕ) → p < 64 → has result p ≡ (if p == processor then is_in else has self p) }
    {
        if is_in {
            return self.with(processor);
        }
        self.without(processor)
    }

    fn with(self, processor: u32) -> ProcessorSet
        requires { processor < 64 }
        ensures { (p : ℕ) → p < 64 → has result p ≡ (if p == processor then true else has self p) }
    {
        ProcessorSet {
            bits: self.bits | (1 << processor),
        }
    }

    fn without(self, processor: u32) -> ProcessorSet
        requires { processor < 64 }
        ensures { (p : ℕ) → p < 64 → has result p ≡ (if p == processor then false else has self p) }
    {
        ProcessorSet {
            bits: self.bits & !(1 << processor),
        }
    }

    /// Those that are in one of two sets.
    pub fn or(self, other: ProcessorSet) -> ProcessorSet
        ensures { (p : ℕ) → has result p ≡ (has self p || has other p) }
    {
        ProcessorSet {
            bits: self.bits | other.bits,
        }
    }

    /// Those that are in both of two sets.
    pub fn and(self, other: ProcessorSet) -> ProcessorSet
        ensures { (p : ℕ) → has result p ≡ (has self p && has other p) }
    {
        ProcessorSet {
            bits: self.bits & other.bits,
        }
    }

    /// The same, or those that are not in the other set.
    pub fn but(self, is_less: bool, other: ProcessorSet) -> ProcessorSet
        ensures { (p : ℕ) → p < 64 → has result p ≡ (has self p && not (is_less && has other p)) }
    {
        if is_less {
            return self.minus(other);
        }
        self
    }

    fn minus(self, other: ProcessorSet) -> ProcessorSet
        ensures { (p : ℕ) → p < 64 → has result p ≡ (has self p && not (has other p)) }
    {
        ProcessorSet {
            bits: self.bits & !other.bits,
        }
    }

    /// The least of the set.
    pub fn least(self) -> Option<u32>
        ensures some { IfSome result (λ p. (p < 64) × (has self p ≡ true)
            × ((q : ℕ) → q < p → has self q ≡ false)) }
        ensures none { IfNone result ((p : ℕ) → has self p ≡ false) }
    {
        if self.bits == 0 {
            return None;
        }
        Some(self.bits.trailing_zeros())
    }
}
