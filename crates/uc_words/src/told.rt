// What the words so far tell of a run.

ghost use Rattle.std.specs.Prelude.{◌≡◌, ◌≤◌, is_some};
ghost use Rattle.uc_words.specs.Words as words;
ghost use Rattle.uc_words.specs.Rest as rest;

use crate::numbers::NumberOption;

/// Each part of a line `run`, where a word told it.
#[derive(Clone, Copy)]
pub struct RunOptions<'a> {
    pub file: Option<&'a str>,
    pub processors: Option<u32>,
    pub slice: Option<u32>,
    pub ticks: Option<u64>,
    pub entries: Option<u32>,
    pub journal: bool,
    pub input: Option<&'a str>,
}

/// Whether the number of an option is told.
pub(crate) fn has_number(told: RunOptions<'_>, option: NumberOption) -> bool
    ensures { result ≡ is_some (words.number_of_option (rest.parts_of told.entry).numbers option) }
{
    match option {
        NumberOption::Processors => told.processors.is_some(),
        NumberOption::Slice => told.slice.is_some(),
        NumberOption::Ticks => told.ticks.is_some(),
        NumberOption::Entries => told.entries.is_some(),
    }
}

/// The same with the number of an option.
pub(crate) fn with_number<'a>(told: RunOptions<'a>, option: NumberOption, n: u64) -> RunOptions<'a>
    requires { n ≤ words.most_of option }
    ensures { rest.parts_of result ≡ rest.with_number (rest.parts_of told.entry) option n }
{
    match option {
        NumberOption::Processors => RunOptions {
            processors: Some(n as u32),
            ..told
        },
        NumberOption::Slice => RunOptions {
            slice: Some(n as u32),
            ..told
        },
        NumberOption::Ticks => RunOptions {
            ticks: Some(n),
            ..told
        },
        NumberOption::Entries => RunOptions {
            entries: Some(n as u32),
            ..told
        },
    }
}
