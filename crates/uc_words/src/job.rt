// What words ask for, and what is wrong with them.

use uc_entry::entry::Options;

/// What a line asks for. Its names are the words themselves.
#[derive(Clone, Copy)]
pub enum Job<'a> {
    /// To run a file: under these options, with the bytes of the file `input` or with none, and to put the journal behind the output or not.
    Run {
        file: &'a str,
        opts: Options,
        journal: bool,
        input: Option<&'a str>,
    },
    /// To check a file.
    Check {
        file: &'a str,
    },
    /// To lower a file.
    Lower {
        file: &'a str,
    },
    /// To make the program of so many tasks, 1 to `uc_tree::limits::MAKE_MAX`.
    Make {
        n: u32,
    },
    /// To explain a journal at an object, 0 to the last below `uc_tree::limits::OBJECTS`.
    Explain {
        journal: &'a str,
        object: u32,
    },
}

/// Why words are no line.
#[derive(Clone, Copy)]
pub enum WordsFault {
    /// No line begins with the words up to this one, from 1. Where some line begins with all words and goes on, it is one past the last.
    Word { number: u32 },
}
