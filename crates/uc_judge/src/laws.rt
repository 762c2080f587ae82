// Laws of runs and of what a judge answers, each the clause of a function without a body.

ghost use Rattle.std.specs.Prelude.{ℕ, Bool, List};
ghost use Rattle.uc_tree.specs.Programs.{Site};
ghost use Rattle.uc_judge.specs.Laws.{LawCut, LawVerdict, LawAnswers};
ghost use Rattle.uc_judge.specs.Runs.{cause_of};

use crate::asks::Asks;

/// A journal has one cut into acts: a run that begins as another one, which has not ended, goes on from it by acts.
pub fn law_cut<A: Asks>()
    ensures { (first : A) (sites : List Site) (input : List ℕ) (lines : Bool) →
        LawCut (cause_of A.asks A.told first sites input lines) }
{}

/// A journal gets one answer.
pub fn law_verdict<A: Asks>()
    ensures { (first : A) (sites : List Site) (input : List ℕ) (lines : Bool) →
        LawVerdict (cause_of A.asks A.told first sites input lines) }
{}

/// The tasks are told of the answers of a kernel, and of no other.
pub fn law_answers()
    ensures { LawAnswers }
{}
