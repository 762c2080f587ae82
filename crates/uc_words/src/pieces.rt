// Reads one piece of a line `run`: its file, or an option with its value.

ghost use Rattle.std.specs.Prelude.{◌≡◌, ◌+◌, ◌≤◌, [], ◌∷◌, IfOk, IfErr, map, string_bytes, length, codes, if◌then◌else◌};
ghost use Rattle.uc_words.specs.declared.numbers.NumberOption.{NumberOption};
ghost use Rattle.uc_words.specs.Words.{Command, RunFile, options_with, option_word, is_name};
ghost use Rattle.uc_words.specs.Rest.{command_of, number_of, parts_of, words_of, words_of_numbers, Goes, BadRest, Leads};

use crate::job::{Job, WordsFault};
use crate::number::read_number;
use crate::numbers::NumberOption;
use crate::told::{RunOptions, has_number, with_number};
use uc_entry::entry::Options;
use uc_tree::limits::{ENTRIES_DEFAULT, PROCESSORS_DEFAULT, SLICE_DEFAULT, TICKS_DEFAULT};

/// What is told once a piece is read, and the words behind it.
#[derive(Clone, Copy)]
pub struct Step<'a> {
    pub told: RunOptions<'a>,
    pub rest: &'a [String],
}

/// Reads the piece that begins with `word`; `behind` are the words behind that one.
pub fn read_piece<'a>(
    word: &'a str,
    behind: &'a [String],
    told: RunOptions<'a>,
) -> Result<Step<'a>, WordsFault>
    ensures leads { IfOk result (λ step. Leads (parts_of told.entry)
        (word.now ∷ map string_bytes behind.now) (parts_of step.told)
        (map string_bytes step.rest.now)) }
    ensures shorter { IfOk result (λ step. length step.rest.now ≤ length behind.now) }
    ensures fault { IfErr result
        (λ fault. BadRest (parts_of told.entry) (word.now ∷ map string_bytes behind.now)
        (number_of fault)) }
{
    if let Some(option) = NumberOption::spelled(word) {
        let step = read_option(option, behind, told)?;
        return Ok(step);
    }
    if word == "--journal" {
        let step = read_journal(behind, told)?;
        return Ok(step);
    }
    if word == "--input" {
        let step = read_input(behind, told)?;
        return Ok(step);
    }
    let step = read_file(word, behind, told)?;
    Ok(step)
}

// Reads the file.
fn read_file<'a>(
    word: &'a str,
    behind: &'a [String],
    told: RunOptions<'a>,
) -> Result<Step<'a>, WordsFault>
    requires no_number { (option : NumberOption) → word.now ≡ option_word option → ⊥ }
    requires no_journal { word.now ≡ codes "--journal" → ⊥ }
    requires no_input { word.now ≡ codes "--input" → ⊥ }
    ensures leads { IfOk result (λ step. Leads (parts_of told.entry)
        (word.now ∷ map string_bytes behind.now) (parts_of step.told)
        (map string_bytes step.rest.now)) }
    ensures shorter { IfOk result (λ step. length step.rest.now ≤ length behind.now) }
    ensures fault { IfErr result
        (λ fault. BadRest (parts_of told.entry) (word.now ∷ map string_bytes behind.now)
        (number_of fault)) }
{
    if told.file.is_some() {
        return Err(fault_at(told, 1));
    }
    if !is_name(word) {
        return Err(fault_at(told, 1));
    }
    let more = RunOptions {
        file: Some(word),
        ..told
    };
    Ok(Step {
        told: more,
        rest: behind,
    })
}

// Reads the value behind an option that has a number.
fn read_option<'a>(
    option: NumberOption,
    behind: &'a [String],
    told: RunOptions<'a>,
) -> Result<Step<'a>, WordsFault>
    ensures leads { IfOk result (λ step. Leads (parts_of told.entry)
        (option_word option ∷ map string_bytes behind.now) (parts_of step.told)
        (map string_bytes step.rest.now)) }
    ensures shorter { IfOk result (λ step. length step.rest.now ≤ length behind.now) }
    ensures fault { IfErr result
        (λ fault. BadRest (parts_of told.entry) (option_word option ∷ map string_bytes behind.now)
        (number_of fault)) }
{
    if has_number(told, option) {
        return Err(fault_at(told, 1));
    }
    let Some((digits, rest)) = behind.split_first() else {
        return Err(fault_at(told, 2));
    };
    let Some(number) = read_number(digits.as_str(), option.least(), option.most()) else {
        return Err(fault_at(told, 2));
    };
    let more = with_number(told, option, number);
    Ok(Step { told: more, rest })
}

// Reads `--journal`, which has no value.
fn read_journal<'a>(behind: &'a [String], told: RunOptions<'a>) -> Result<Step<'a>, WordsFault>
    ensures leads { IfOk result (λ step. Leads (parts_of told.entry)
        (codes "--journal" ∷ map string_bytes behind.now) (parts_of step.told)
        (map string_bytes step.rest.now)) }
    ensures shorter { IfOk result (λ step. length step.rest.now ≤ length behind.now) }
    ensures fault { IfErr result
        (λ fault. BadRest (parts_of told.entry) (codes "--journal" ∷ map string_bytes behind.now)
        (number_of fault)) }
{
    if told.journal {
        return Err(fault_at(told, 1));
    }
    let more = RunOptions {
        journal: true,
        ..told
    };
    Ok(Step {
        told: more,
        rest: behind,
    })
}

// Reads the name behind `--input`.
fn read_input<'a>(behind: &'a [String], told: RunOptions<'a>) -> Result<Step<'a>, WordsFault>
    ensures leads { IfOk result (λ step. Leads (parts_of told.entry)
        (codes "--input" ∷ map string_bytes behind.now) (parts_of step.told)
        (map string_bytes step.rest.now)) }
    ensures shorter { IfOk result (λ step. length step.rest.now ≤ length behind.now) }
    ensures fault { IfErr result
        (λ fault. BadRest (parts_of told.entry) (codes "--input" ∷ map string_bytes behind.now)
        (number_of fault)) }
{
    if told.input.is_some() {
        return Err(fault_at(told, 1));
    }
    let Some((value, rest)) = behind.split_first() else {
        return Err(fault_at(told, 2));
    };
    let name = value.as_str();
    if !is_name(name) {
        return Err(fault_at(told, 2));
    }
    let more = RunOptions {
        input: Some(name),
        ..told
    };
    Ok(Step { told: more, rest })
}

/// The job, once all words are read.
pub fn finish(told: RunOptions<'_>) -> Result<Job<'_>, WordsFault>
    ensures line { IfOk result (λ job. Goes (parts_of told.entry) [] (command_of job)) }
    ensures only { IfOk result (λ job. (other : Command) → Goes (parts_of told.entry) [] other →
        other ≡ command_of job) }
    ensures fault { IfErr result (λ fault. BadRest (parts_of told.entry) [] (number_of fault)) }
{
    match told.file {
        None => Err(fault_at(told, 1)),
        Some(file) => {
            let job = job_of(file, told);
            Ok(job)
        }
    }
}

// The job of a file and what its options say.
fn job_of<'a>(file: &'a str, told: RunOptions<'a>) -> Job<'a>
    ensures { command_of result
        ≡ RunFile file.now (options_with (parts_of told.entry).numbers)
        (parts_of told.entry).journal (parts_of told.entry).input }
{
    Job::Run {
        file,
        opts: Options {
            processors: told.processors.unwrap_or(PROCESSORS_DEFAULT),
            slice: told.slice.unwrap_or(SLICE_DEFAULT),
            ticks: told.ticks.unwrap_or(TICKS_DEFAULT),
            entries: told.entries.unwrap_or(ENTRIES_DEFAULT),
        },
        journal: told.journal,
        input: told.input,
    }
}

// The fault of the word that is so many words behind those that told the parts.
fn fault_at(told: RunOptions<'_>, ahead: u32) -> WordsFault
    requires { ahead ≤ 2 }
    ensures { number_of result ≡ words_of (parts_of told.entry) + ahead }
{
    let file = worth(told.file.is_some(), 1);
    let numbers = words_of_numbers(told);
    let journal = worth(told.journal, 1);
    let input = worth(told.input.is_some(), 2);
    WordsFault::Word {
        number: 1 + file + numbers + journal + input + ahead,
    }
}

// How many words told the numbers.
fn words_of_numbers(told: RunOptions<'_>) -> u32
    ensures words { result ≡ words_of_numbers (parts_of told.entry).numbers }
    ensures few { result ≤ 8 }
{
    let processors = worth(told.processors.is_some(), 2);
    let slice = worth(told.slice.is_some(), 2);
    let ticks = worth(told.ticks.is_some(), 2);
    let entries = worth(told.entries.is_some(), 2);
    processors + slice + ticks + entries
}

// How many words told a part.
fn worth(told: bool, words: u32) -> u32
    ensures { result ≡ (if told then words else 0) }
{
    if told { words } else { 0 }
}

/// Whether a word may be a name: it is not empty and does not begin with `-`.
pub(crate) fn is_name(word: &str) -> bool
    ensures { result ≡ is_name word.now }
{
    match word.as_bytes() {
        [] => false,
        [first, ..] => *first != b'-',
    }
}
