// The forms of the text of a journal.

ghost use Rattle.std.specs.Prelude.{◌≡◌, ◌≤◌};
ghost use Rattle.uc_journal.specs.Fields.{count_in};
ghost use Rattle.uc_journal.specs.Lines.{HasHeading, IsBody, lines_before};

/// The first line of the text of a journal; the old form has none.
pub(crate) const HEADING: [u8; 15] = *b"ucpp-journal 2\n";

/// A form of the text of a journal.
#[derive(Clone, Copy)]
pub(crate) enum Form {
    /// Lines of a word and eight numbers.
    Old,
    /// The heading, and then lines of a word, eight numbers and the line of the request.
    New,
}

/// A text without its heading, where it has one.
#[derive(Clone, Copy)]
pub(crate) struct Body<'a> {
    pub form: Form,
    pub rest: &'a [u8],
}

impl Form {
    /// How many lines stand before the first entry.
    pub(crate) fn lines_before(self) -> usize
        ensures { result ≡ lines_before self }
    {
        match self {
            Form::Old => 0,
            Form::New => 1,
        }
    }

    /// How many numbers stand behind the word of an entry.
    pub(crate) fn count(self) -> usize
        ensures count { result ≡ count_in self }
        ensures few { result ≤ 9 }
    {
        match self {
            Form::Old => 8,
            Form::New => 9,
        }
    }
}

/// The version of the text of a journal: 2 where its first line is `ucpp-journal 2`, else 1.
pub fn version(text: &[u8]) -> u8
    ensures second { HasHeading text.now → result ≡ 2 }
    ensures first { (HasHeading text.now → ⊥) → result ≡ 1 }
{
    match body_of(text).form {
        Form::Old => 1,
        Form::New => 2,
    }
}

/// What stands behind the heading, or the whole text where it has none.
pub(crate) fn body_of(text: &[u8]) -> Body<'_>
    ensures { IsBody text.now result.form result.rest.now }
{
    match text.strip_prefix(&HEADING) {
        Some(rest) => Body {
            form: Form::New,
            rest,
        },
        None => Body {
            form: Form::Old,
            rest: text,
        },
    }
}
