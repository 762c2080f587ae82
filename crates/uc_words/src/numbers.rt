// The options that have a number.

ghost use Rattle.std.specs.Prelude.{◌≡◌, ◌≤◌, IfSome, IfNone};
ghost use Rattle.uc_tree.specs.declared.limits.TheConstants.{TICKS_MAX};
ghost use Rattle.uc_words.specs.declared.numbers.NumberOption.{NumberOption};
ghost use Rattle.uc_words.specs.Words as words;

use uc_tree::limits::{
    ENTRIES_MAX, ENTRIES_MIN, PROCESSORS, PROCESSORS_MIN, SLICE_MAX, SLICE_MIN, TICKS_MAX,
    TICKS_MIN,
};

/// An option of `run` that has a number.
#[derive(Clone, Copy)]
pub enum NumberOption {
    Processors,
    Slice,
    Ticks,
    Entries,
}

impl NumberOption {
    /// The option that is spelled so.
    pub(crate) fn spelled(word: &str) -> Option<NumberOption>
        ensures option { IfSome result (λ option. word.now ≡ words.option_word option) }
        ensures none { IfNone result ((option : NumberOption) →
            word.now ≡ words.option_word option → ⊥) }
    {
        if word == "--processors" {
            return Some(NumberOption::Processors);
        }
        if word == "--slice" {
            return Some(NumberOption::Slice);
        }
        if word == "--ticks" {
            return Some(NumberOption::Ticks);
        }
        if word == "--entries" {
            return Some(NumberOption::Entries);
        }
        None
    }

    /// Its least value.
    pub(crate) fn least(self) -> u64
        ensures { result ≡ words.least_of self }
    {
        match self {
            NumberOption::Processors => u64::from(PROCESSORS_MIN),
            NumberOption::Slice => u64::from(SLICE_MIN),
            NumberOption::Ticks => TICKS_MIN,
            NumberOption::Entries => u64::from(ENTRIES_MIN),
        }
    }

    /// Its greatest value.
    pub(crate) fn most(self) -> u64
        ensures value { result ≡ words.most_of self }
        ensures small { result ≤ TICKS_MAX }
    {
        match self {
            NumberOption::Processors => u64::from(PROCESSORS),
            NumberOption::Slice => u64::from(SLICE_MAX),
            NumberOption::Ticks => TICKS_MAX,
            NumberOption::Entries => u64::from(ENTRIES_MAX),
        }
    }
}
