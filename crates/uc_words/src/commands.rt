// Reads what stands behind the commands that have just one word or two behind them.

ghost use Rattle.std.specs.Prelude.{◌≡◌, ℕ, List, [], ◌∷◌, IfOk, IfErr, IsTrue, map, string_bytes, codes};
ghost use Rattle.uc_tree.specs.declared.limits.TheConstants.{MAKE_MAX, OBJECTS};
ghost use Rattle.uc_words.specs.Words.{IsFirstBad, IsMakeLine, IsExplainLine, is_name};
ghost use Rattle.uc_words.specs.Rest.{number_of};
ghost use Rattle.uc_words.specs.Commands.{IsFileCommand};

use crate::job::WordsFault;
use crate::number::read_number;
use crate::pieces::is_name;
use uc_tree::limits::{MAKE_MAX, OBJECTS};

/// The file of a command that has a file alone.
pub(crate) fn read_name(words: &[String]) -> Result<&str, WordsFault>
    ensures one { IfOk result (λ file. map string_bytes words.now ≡ file.now ∷ []) }
    ensures name { IfOk result (λ file. IsTrue (is_name file.now)) }
    ensures fault { IfErr result (λ fault. (command : List ℕ) → IsFileCommand command →
        IsFirstBad (command ∷ map string_bytes words.now) (number_of fault)) }
{
    let Some((word, more)) = words.split_first() else {
        return Err(WordsFault::Word { number: 2 });
    };
    let file = word.as_str();
    if !is_name(file) {
        return Err(WordsFault::Word { number: 2 });
    }
    if !more.is_empty() {
        return Err(WordsFault::Word { number: 3 });
    }
    Ok(file)
}

/// The number of tasks behind `make`.
pub(crate) fn read_make(words: &[String]) -> Result<u32, WordsFault>
    ensures line { IfOk result (λ n. IsMakeLine (codes "make" ∷ map string_bytes words.now) n) }
    ensures fault { IfErr result
        (λ fault. IsFirstBad (codes "make" ∷ map string_bytes words.now) (number_of fault)) }
{
    let Some((word, more)) = words.split_first() else {
        return Err(WordsFault::Word { number: 2 });
    };
    let Some(n) = read_number(word.as_str(), 1, u64::from(MAKE_MAX)) else {
        return Err(WordsFault::Word { number: 2 });
    };
    if !more.is_empty() {
        return Err(WordsFault::Word { number: 3 });
    }
    Ok(n as u32)
}

/// The journal and the number of an object behind `explain`.
pub(crate) fn read_explain(words: &[String]) -> Result<(&str, u32), WordsFault>
    ensures line { IfOk result (λ asked. IsExplainLine
        (codes "explain" ∷ map string_bytes words.now) asked.0.now asked.1) }
    ensures fault { IfErr result
        (λ fault. IsFirstBad (codes "explain" ∷ map string_bytes words.now) (number_of fault)) }
{
    let Some((first, behind)) = words.split_first() else {
        return Err(WordsFault::Word { number: 2 });
    };
    let journal = first.as_str();
    if !is_name(journal) {
        return Err(WordsFault::Word { number: 2 });
    }
    let Some((second, more)) = behind.split_first() else {
        return Err(WordsFault::Word { number: 3 });
    };
    let Some(object) = read_number(second.as_str(), 0, u64::from(OBJECTS - 1)) else {
        return Err(WordsFault::Word { number: 3 });
    };
    if !more.is_empty() {
        return Err(WordsFault::Word { number: 4 });
    }
    Ok((journal, object as u32))
}
