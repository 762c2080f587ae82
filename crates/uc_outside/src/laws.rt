// Laws over the words of the contracts, for callers that read and put more than once.
ghost use Rattle.std.specs.Prelude.{◌≡◌, ℕ, List, [], ◌++◌, IsTrue};
ghost use Rattle.uc_outside.specs.Reading.{StoreState, HasFile, ReadBytes, ReadFailed, ReadTooLong};
ghost use Rattle.uc_outside.specs.Taking.{SinkState, Took, TookPrefix, FailedAt, HasRoom};

/// What was put, and then more, is both, one after the other.
pub fn law_puts_add_up()
    ensures none { (a : SinkState) → Took a a [] }
    ensures took { (a b c : SinkState) (xs ys : List ℕ) → Took a b xs → Took b c ys →
        Took a c (xs ++ ys) }
    ensures prefix { (a b c : SinkState) (xs ys : List ℕ) → Took a b xs → TookPrefix b c ys →
        TookPrefix a c (xs ++ ys) }
    ensures failed { (a b c : SinkState) (xs ys : List ℕ) → Took a b xs → FailedAt b c ys →
        FailedAt a c (xs ++ ys) }
    ensures prefix_longer { (a b : SinkState) (xs ys : List ℕ) → TookPrefix a b xs →
        TookPrefix a b (xs ++ ys) }
    ensures failed_longer { (a b : SinkState) (xs ys : List ℕ) → FailedAt a b xs →
        FailedAt a b (xs ++ ys) }
{}

/// A room that holds both texts holds the second after the first, and neither fails.
pub fn law_room_holds()
    ensures after { (a b : SinkState) (xs ys : List ℕ) → Took a b xs → HasRoom a (xs ++ ys) →
        HasRoom b ys }
    ensures holds { (a b : SinkState) (text : List ℕ) → HasRoom a text → FailedAt a b text → ⊥ }
{}

/// A store that has the name within the limit gives its bytes; a steady one does not fail.
pub fn law_file_is_read()
    ensures content { (a b : StoreState) (name bytes : List ℕ) (limit : ℕ)
        (h : HasFile a name limit) → ReadBytes a b name limit bytes → bytes ≡ h.bytes }
    ensures not_long { (a b : StoreState) (name : List ℕ) (limit : ℕ) → HasFile a name limit →
        ReadTooLong a b name limit → ⊥ }
    ensures steady { (a b : StoreState) (name : List ℕ) (limit : ℕ) → IsTrue a.steady →
        HasFile a name limit → ReadFailed a b name → ⊥ }
{}
