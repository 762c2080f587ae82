// Reads a command line, piece by piece.

ghost use Rattle.std.specs.Prelude.{◌≡◌, ◌↔◌, IfOk, IfErr, IsTrue, codes, map, string_bytes};
ghost use Rattle.uc_words.specs.Words.{Command, IsLine, IsFirstBad};
ghost use Rattle.uc_words.specs.Rest.{command_of, number_of, nothing, Goes, BadRest};

use crate::commands::{read_explain, read_make, read_name};
use crate::job::{Job, WordsFault};
use crate::pieces::{finish, read_piece};
use crate::told::RunOptions;

/// The job of these words, which is the only one that they ask for, or the first word at fault.
pub fn read_words(words: &[String]) -> Result<Job<'_>, WordsFault>
    ensures line { IfOk result (λ job. IsLine (map string_bytes words.now) (command_of job)) }
    ensures only { IfOk result (λ job. (other : Command) →
        IsLine (map string_bytes words.now) other → other ≡ command_of job) }
    ensures fault { IfErr result
        (λ fault. IsFirstBad (map string_bytes words.now) (number_of fault)) }
{
    let Some((command, rest)) = words.split_first() else {
        return Err(WordsFault::Word { number: 1 });
    };
    let command = command.as_str();
    if command == "run" {
        return match read_run(rest) {
            Ok(job) => Ok(job),
            Err(fault) => Err(fault),
        };
    }
    if command == "check" {
        return match read_name(rest) {
            Ok(file) => Ok(Job::Check { file }),
            Err(fault) => Err(fault),
        };
    }
    if command == "lower" {
        return match read_name(rest) {
            Ok(file) => Ok(Job::Lower { file }),
            Err(fault) => Err(fault),
        };
    }
    if command == "make" {
        return match read_make(rest) {
            Ok(n) => Ok(Job::Make { n }),
            Err(fault) => Err(fault),
        };
    }
    if command == "explain" {
        return match read_explain(rest) {
            Ok((journal, object)) => Ok(Job::Explain { journal, object }),
            Err(fault) => Err(fault),
        };
    }
    Err(WordsFault::Word { number: 1 })
}

// What stands behind `run`.
fn read_run(words: &[String]) -> Result<Job<'_>, WordsFault>
    ensures line { IfOk result (λ job. Goes nothing (map string_bytes words.now) (command_of job)) }
    ensures only { IfOk result (λ job. (other : Command) →
        Goes nothing (map string_bytes words.now) other → other ≡ command_of job) }
    ensures fault { IfErr result
        (λ fault. BadRest nothing (map string_bytes words.now) (number_of fault)) }
{
    let mut told = RunOptions {
        file: None,
        processors: None,
        slice: None,
        ticks: None,
        entries: None,
        journal: false,
        input: None,
    };
    let mut rest = words;
    while let Some((word, behind)) = rest.split_first() {
        let step = read_piece(word.as_str(), behind, told)?;
        told = step.told;
        rest = step.rest;
    }
    let job = finish(told)?;
    Ok(job)
}
