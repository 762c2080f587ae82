// What the words make of the store: a run, or the reason why there is none.

ghost use Rattle.std.specs.Prelude.{◌≡◌, ◌≤◌, ◌<◌, ◌^◌, IfOk, IfErr, length, map, string_bytes, option_copied};
ghost use Rattle.uc_tree.specs.declared.limits.TheConstants.{PROGRAM_BYTES, INPUT_BYTES, JOURNAL_BYTES};
ghost use Rattle.uc_tree.specs.Tokens.{tokens, Refused};
ghost use Rattle.uc_outside.specs.Reading.{KeepsFiles, ReadBytes};
ghost use Rattle.uc_words.specs.Rest.{command_of, number_of};
ghost use Rattle.uc_sound.specs.SoundFormed.{IsFormed};
ghost use Rattle.uc_top.specs.Accepted.{place_of};
ghost use Rattle.uc_top.specs.Commands.{HasDone, CommandDid, ReadsTexts, ReadsInput, TextExplained, JournalExplained};
ghost use Rattle.uc_top.specs.Refusals.{Refuses};
ghost use Rattle.uc_top.specs.Decisions.{IsInRange, CommandRefused, HasEntries, ProgramDid, ProgramRefused, TokensDid, TokensRefused, TextDid, TextRefused, FilesDid, FilesRefused, NotRead, InputNotRead, JournalTextRefused, JournalRefused};

use crate::program::{Purpose, Run, done_with, make_program, run_program};
use crate::refusals::Refusal;
use std::alloc::Global;
use std::sync::Wait;
use std::thread::Threads;
use uc_explain::explain;
use uc_front::check;
use uc_grammar::fault::ParseFault;
use uc_journal::{JournalFault, read_journal};
use uc_lex::{LexFault, lex, pos_at};
use uc_outside::{Gate, Store, StoreFault};
use uc_parse_class::parse::parse;
use uc_rules::checked::RuleFault;
use uc_tree::limits::{INPUT_BYTES, JOURNAL_BYTES, PROGRAM_BYTES};
use uc_tree::pos::Pos;
use uc_tree::program::Program;
use uc_tree::scan::LexicalFault;
use uc_tree::token::Token;
use uc_words::{Job, WordsFault, read_words};

/// Why nothing is run, and the name of the file that was not read.
#[derive(Clone, Copy)]
pub(crate) struct RefusedFor<'a> {
    pub refusal: Refusal,
    pub name: &'a str,
}

/// What the words make of the store.
pub(crate) fn decide<'a, R: Threads + Wait + Sync, G: Gate + Sync, S: Store>(
    rt: &R,
    gate: &G,
    alloc: Global,
    words: &'a [String],
    store: &mut S,
) -> Result<Run, RefusedFor<'a>>
    ensures done { IfOk result (λ run. HasDone (map string_bytes words.now) (S.state store.old)
        (S.state store.new) run.journal.items run.output.items run.ending) }
    ensures store { KeepsFiles (S.state store.old) (S.state store.new) }
    ensures refused { IfErr result
        (λ why. Refuses (map string_bytes words.now) (S.state store.old)
        (S.state store.new) why.refusal why.name.now) }
{
    match read_words(words) {
        Ok(job) => match do_job(rt, gate, alloc, job, store) {
            Ok(run) => Ok(run),
            Err(why) => Err(why),
        },
        Err(fault) => Err(bad_word(fault)),
    }
}

// Does what the words ask for.
fn do_job<'a, R: Threads + Wait + Sync, G: Gate + Sync, S: Store>(
    rt: &R,
    gate: &G,
    alloc: Global,
    job: Job<'a>,
    store: &mut S,
) -> Result<Run, RefusedFor<'a>>
    requires range { IsInRange (command_of job) }
    ensures did { IfOk result (λ run. CommandDid (command_of job.entry) (S.state store.old)
        (S.state store.new) run.journal.items run.output.items run.ending) }
    ensures store { KeepsFiles (S.state store.old) (S.state store.new) }
    ensures refused { IfErr result
        (λ why. CommandRefused (command_of job.entry) (S.state store.old)
        (S.state store.new) why.refusal why.name.now) }
{
    match job {
        Job::Run {
            file,
            opts,
            journal,
            input,
        } => {
            let purpose = Purpose::Run { opts, journal };
            match do_files(rt, gate, alloc, file, input, purpose, store) {
                Ok(run) => Ok(run),
                Err(why) => Err(why),
            }
        }
        Job::Check { file } => match do_files(rt, gate, alloc, file, None, Purpose::Check, store) {
            Ok(run) => Ok(run),
            Err(why) => Err(why),
        },
        Job::Lower { file } => match do_files(rt, gate, alloc, file, None, Purpose::Lower, store) {
            Ok(run) => Ok(run),
            Err(why) => Err(why),
        },
        Job::Make { n } => match make_program(alloc, n) {
            Ok(run) => Ok(run),
            Err(_) => Err(unnamed(Refusal::NoMemory)),
        },
        Job::Explain { journal, object } => match explain_file(alloc, journal, object, store) {
            Ok(run) => Ok(run),
            Err(why) => Err(why),
        },
    }
}

// Explains the journal of a file at an object.
fn explain_file<'a, S: Store>(
    alloc: Global,
    file: &'a str,
    object: u32,
    store: &mut S,
) -> Result<Run, RefusedFor<'a>>
    ensures did { IfOk result (λ run. JournalExplained (S.state store.old)
        (S.state store.new) file.now object run.journal.items run.output.items run.ending) }
    ensures store { KeepsFiles (S.state store.old) (S.state store.new) }
    ensures refused { IfErr result
        (λ why. JournalRefused (S.state store.old)
        (S.state store.new) file.now why.refusal why.name.now) }
{
    match read_named(alloc, file, JOURNAL_BYTES, store) {
        Ok(text) => match explain_text(alloc, &text, object) {
            Ok(run) => Ok(run),
            Err(refusal) => Err(unnamed(refusal)),
        },
        Err(why) => Err(why),
    }
}

// Explains the journal of a text at an object.
fn explain_text(alloc: Global, text: &[u8], object: u32) -> Result<Run, Refusal>
    ensures did { IfOk result (λ run. TextExplained text.now object run.journal.items
        run.output.items run.ending) }
    ensures refused { IfErr result (JournalTextRefused text.now) }
{
    match read_journal(alloc, text) {
        Ok(journal) => match explain(alloc, &journal, object) {
            Ok(output) => Ok(done_with(alloc, output)),
            Err(_) => Err(Refusal::NoMemory),
        },
        Err(JournalFault::BadLine { n }) => Err(Refusal::BadLine(n)),
        Err(JournalFault::NoMemory) => Err(Refusal::NoMemory),
    }
}

// The refusal of words that are no line.
fn bad_word<'a>(fault: WordsFault) -> RefusedFor<'a>
    ensures { result.refusal ≡ Refusal.Word (number_of fault) }
{
    match fault {
        WordsFault::Word { number } => unnamed(Refusal::Word(number)),
    }
}

// A refusal that names no file.
fn unnamed<'a>(refusal: Refusal) -> RefusedFor<'a>
    ensures { result.refusal ≡ refusal }
{
    RefusedFor { refusal, name: "" }
}

fn do_files<'a, R: Threads + Wait + Sync, G: Gate + Sync, S: Store>(
    rt: &R,
    gate: &G,
    alloc: Global,
    file: &'a str,
    named: Option<&'a str>,
    purpose: Purpose,
    store: &mut S,
) -> Result<Run, RefusedFor<'a>>
    requires purpose { HasEntries purpose }
    ensures did { IfOk result (λ run. FilesDid (S.state store.old) (S.state store.new) file.now
        (option_copied named.entry) purpose run.journal.items run.output.items run.ending) }
    ensures store { KeepsFiles (S.state store.old) (S.state store.new) }
    ensures refused { IfErr result
        (λ why. FilesRefused (S.state store.old) (S.state store.new) file.now
        (option_copied named.entry) why.refusal why.name.now) }
{
    match read_texts(alloc, file, named, store) {
        Ok(texts) => match do_text(rt, gate, alloc, &texts.program, &texts.input, purpose) {
            Ok(run) => Ok(run),
            Err(refusal) => Err(unnamed(refusal)),
        },
        Err(why) => Err(why),
    }
}

// The bytes of a program and of its input.
#[derive(Drop)]
struct Texts {
    program: Vec<u8>,
    input: Vec<u8>,
}

fn read_texts<'a, S: Store>(
    alloc: Global,
    file: &'a str,
    named: Option<&'a str>,
    store: &mut S,
) -> Result<Texts, RefusedFor<'a>>
    ensures program { IfOk result (λ texts. length texts.program.items ≤ PROGRAM_BYTES) }
    ensures input { IfOk result (λ texts. length texts.input.items ≤ INPUT_BYTES) }
    ensures read { IfOk result (λ texts. ReadsTexts (S.state store.old) (S.state store.new) file.now
        (option_copied named.entry) texts.program.items texts.input.items) }
    ensures store { KeepsFiles (S.state store.old) (S.state store.new) }
    ensures refused { IfErr result
        (λ why. FilesRefused (S.state store.old) (S.state store.new) file.now
        (option_copied named.entry) why.refusal why.name.now) }
{
    match read_named(alloc, file, PROGRAM_BYTES, store) {
        Ok(program) => match read_input(alloc, named, store) {
            Ok(input) => Ok(Texts { program, input }),
            Err(why) => Err(why),
        },
        Err(why) => Err(why),
    }
}

// The bytes of the input, which is empty where no file is named.
fn read_input<'a, S: Store>(
    alloc: Global,
    named: Option<&'a str>,
    store: &mut S,
) -> Result<Vec<u8>, RefusedFor<'a>>
    ensures within { IfOk result (λ v. length v.items ≤ INPUT_BYTES) }
    ensures same { IfOk result (λ v. (S.state store.new).count ≡ (S.state store.old).count) }
    ensures read { IfOk result (λ v. ReadsInput (S.state store.old) (S.state store.new)
        (option_copied named.entry) v.items) }
    ensures store { KeepsFiles (S.state store.old) (S.state store.new) }
    ensures refused { IfErr result
        (λ why. InputNotRead (S.state store.old) (S.state store.new)
        (option_copied named.entry) why.refusal why.name.now) }
{
    match named {
        None => Ok(Vec::new(alloc)),
        Some(name) => match read_named(alloc, name, INPUT_BYTES, store) {
            Ok(input) => Ok(input),
            Err(why) => Err(why),
        },
    }
}

fn read_named<'a, S: Store>(
    alloc: Global,
    name: &'a str,
    limit: u32,
    store: &mut S,
) -> Result<Vec<u8>, RefusedFor<'a>>
    ensures store { KeepsFiles (S.state store.old) (S.state store.new) }
    ensures read { IfOk result (λ v. ReadBytes (S.state store.old)
        (S.state store.new) name.now limit v.items) }
    ensures named { IfErr result (λ why. why.name.now ≡ name.now) }
    ensures refused { IfErr result
        (λ why. NotRead (S.state store.old) (S.state store.new) name.now limit why.refusal) }
{
    match store.read(alloc, name, limit) {
        Ok(bytes) => Ok(bytes),
        Err(StoreFault::Failed) => Err(RefusedFor {
            refusal: Refusal::CannotRead,
            name,
        }),
        Err(StoreFault::TooLong) => Err(RefusedFor {
            refusal: Refusal::TooLong,
            name,
        }),
        Err(StoreFault::NoMemory) => Err(RefusedFor {
            refusal: Refusal::NoMemory,
            name,
        }),
    }
}

fn do_text<R: Threads + Wait + Sync, G: Gate + Sync>(
    rt: &R,
    gate: &G,
    alloc: Global,
    text: &[u8],
    input: &[u8],
    purpose: Purpose,
) -> Result<Run, Refusal>
    requires text { length text.now ≤ PROGRAM_BYTES }
    requires input { length input.now ≤ INPUT_BYTES }
    requires purpose { HasEntries purpose }
    ensures did { IfOk result (λ run. TextDid purpose text.now input.now run.journal.items
        run.output.items run.ending) }
    ensures refused { IfErr result (TextRefused text.now) }
{
    match lex(alloc, text) {
        Ok(tokens) => {
            let ran = do_tokens(rt, gate, alloc, text, &tokens, input, purpose);
            drop(tokens);
            match ran {
                Ok(run) => Ok(run),
                Err(refusal) => Err(refusal),
            }
        }
        Err(LexFault::NoMemory) => Err(Refusal::NoMemory),
        Err(LexFault::BadByte { at }) => Err(fault_at(text, LexicalFault::BadByte, at)),
        Err(LexFault::OpenComment { at }) => Err(fault_at(text, LexicalFault::OpenComment, at)),
        Err(LexFault::OpenText { at }) => Err(fault_at(text, LexicalFault::OpenText, at)),
        Err(LexFault::NumberTooWide { at }) => Err(fault_at(text, LexicalFault::NumberTooWide, at)),
        Err(LexFault::TextTooLong { at, len }) => {
            Err(fault_at(text, LexicalFault::TextTooLong(len), at))
        }
    }
}

// The refusal of a text without tokens.
fn fault_at(text: &[u8], why: LexicalFault, at: u32) -> Refusal
    requires size { length text.now ≤ PROGRAM_BYTES }
    requires inside { at < length text.now }
    ensures { tokens text.now ≡ Refused why at → TextRefused text.now result }
{
    Refusal::Lexical(why, pos_at(text, at))
}

fn do_tokens<R: Threads + Wait + Sync, G: Gate + Sync>(
    rt: &R,
    gate: &G,
    alloc: Global,
    text: &[u8],
    tokens: &[Token],
    input: &[u8],
    purpose: Purpose,
) -> Result<Run, Refusal>
    requires text { length text.now ≤ PROGRAM_BYTES }
    requires few { length tokens.now < 2 ^ 32 }
    requires input { length input.now ≤ INPUT_BYTES }
    requires purpose { HasEntries purpose }
    ensures did { IfOk result (λ run. TokensDid purpose tokens.now input.now run.journal.items
        run.output.items run.ending) }
    ensures refused { IfErr result (TokensRefused text.now tokens.now) }
{
    match parse(alloc, tokens) {
        Ok(program) => {
            let ran = do_program(rt, gate, alloc, &program, input, purpose);
            drop(program);
            match ran {
                Ok(run) => Ok(run),
                Err(refusal) => Err(refusal),
            }
        }
        Err(ParseFault::Syntax { token }) => Err(Refusal::Syntax(place_of(text, tokens, token))),
        Err(ParseFault::TooDeep { token }) => {
            Err(Refusal::TooDeep(place_of(text, tokens, token)))
        }
        Err(ParseFault::NoMemory) => Err(Refusal::NoMemory),
    }
}

// The place of a token by its number; behind the last one it is that just past the last byte.
fn place_of(text: &[u8], tokens: &[Token], token: u32) -> Pos
    requires text { length text.now ≤ PROGRAM_BYTES }
    ensures { result ≡ place_of text.now tokens.now token }
{
    match tokens.get(token as usize) {
        Some(token) => token.pos,
        None => pos_at(text, text.len() as u32),
    }
}

// What was done with a program that is checked first, or why it was not.
fn do_program<R: Threads + Wait + Sync, G: Gate + Sync>(
    rt: &R,
    gate: &G,
    alloc: Global,
    program: &Program,
    input: &[u8],
    purpose: Purpose,
) -> Result<Run, Refusal>
    requires formed { IsFormed program.now }
    requires input { length input.now ≤ INPUT_BYTES }
    requires purpose { HasEntries purpose }
    ensures did { IfOk result (λ run. ProgramDid purpose program.now input.now run.journal.items
        run.output.items run.ending) }
    ensures refused { IfErr result (ProgramRefused program.now) }
{
    match check(alloc, program) {
        Ok(checked) => {
            let ran = run_program(rt, gate, alloc, &checked, input, purpose);
            drop(checked);
            match ran {
                Ok(run) => Ok(run),
                Err(refusal) => Err(refusal),
            }
        }
        Err(RuleFault::Rule { rule, pos }) => Err(Refusal::Broken(rule, pos)),
        Err(RuleFault::NoMemory) => Err(Refusal::NoMemory),
    }
}
