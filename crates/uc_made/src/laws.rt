// The law of the generated program. The function does nothing: its contract is the law.

ghost use Rattle.std.specs.Prelude.{ℕ, ◌≤◌};
ghost use Rattle.uc_tree.specs.declared.limits.TheConstants.{MAKE_MAX};
ghost use Rattle.uc_make.specs.Generated.{generated};
ghost use Rattle.uc_made.specs.AcceptedTexts.{IsOfAccepted};

/// The text that `make` writes, for any number of tasks that it takes, is that of an accepted program.
pub fn law_made_is_accepted()
    ensures { (n : ℕ) → 1 ≤ n → n ≤ MAKE_MAX → IsOfAccepted (generated n) }
{}
