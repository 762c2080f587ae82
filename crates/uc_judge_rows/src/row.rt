// A journal with its accept statements and its changes, and what is judged of it.

use crate::asked::script_of;
use crate::change::{Change, put};
use std::alloc::{AllocError, Global};
use uc_journal::{read_journal, version};
use uc_judge::judging::judge;
use uc_judge::script::Script;
use uc_judge::verdict::Verdict;
use uc_tree::limits::INPUT_BYTES;
use uc_tree::site::{Members, Site};

#[derive(Drop)]
pub(crate) struct Row {
    sites: Vec<Site>,
    input: String,
    // Where the tasks ask otherwise than the journal tells.
    asked: Option<Change>,
    heading: String,
    entries: Vec<String>,
    changes: Vec<Change>,
}

impl Row {
    pub(crate) fn new(alloc: Global) -> Row {
        Row {
            sites: Vec::new(alloc),
            input: String::new(alloc),
            asked: None,
            heading: String::new(alloc),
            entries: Vec::new(alloc),
            changes: Vec::new(alloc),
        }
    }

    /// Adds an accept statement.
    pub(crate) fn add_site(&mut self, alloc: Global, line: &str) -> Result<(), AllocError> {
        let mut clauses = Vec::new(alloc);
        for list in line.split_whitespace().skip(1) {
            clauses.push(members_of(alloc, list)?)?;
        }
        self.sites.push(Site {
            class: 0,
            clauses,
            has_else: line.starts_with("1"),
        })?;
        Ok(())
    }

    /// Adds a line to the input.
    pub(crate) fn add_input(&mut self, line: &str) -> Result<(), AllocError> {
        put(&mut self.input, line)
    }

    /// The tasks ask as the journal with this change tells.
    pub(crate) fn ask(&mut self, change: Option<Change>) {
        self.asked = change;
    }

    /// Adds the heading of the journal or its next entry.
    pub(crate) fn add_entry(&mut self, alloc: Global, line: &str) -> Result<(), AllocError> {
        if line.starts_with("ucpp-journal ") {
            return put(&mut self.heading, line);
        }
        self.entries.push(String::from_str(alloc, line)?)?;
        Ok(())
    }

    pub(crate) fn add_change(&mut self, change: Change) -> Result<(), AllocError> {
        self.changes.push(change)?;
        Ok(())
    }

    /// The verdicts on the journal, and with each change.
    pub(crate) fn answer(&self, alloc: Global) -> Result<String, AllocError> {
        let mut told = String::new(alloc);
        if self.entries.is_empty() {
            return Ok(told);
        }
        let text = self.text(alloc)?;
        put(&mut told, self.judged(alloc, text.as_str())?.as_str())?;
        for change in &self.changes {
            let text = change.made(alloc, self.heading.as_str(), &self.entries)?;
            let verdict = self.judged(alloc, text.as_str())?;
            put(
                &mut told,
                format!(in alloc; "{}: {verdict}", change.line())?.as_str(),
            )?;
        }
        Ok(told)
    }

    // The text of the journal.
    fn text(&self, alloc: Global) -> Result<String, AllocError> {
        let mut text = String::from_str(alloc, self.heading.as_str())?;
        for entry in &self.entries {
            put(&mut text, entry.as_str())?;
        }
        Ok(text)
    }

    // What the tasks ask.
    fn script(&self, alloc: Global) -> Result<Script, AllocError> {
        let text = match &self.asked {
            Some(change) => change.made(alloc, self.heading.as_str(), &self.entries)?,
            None => self.text(alloc)?,
        };
        match read_journal(alloc, text.as_bytes()) {
            Ok(journal) => script_of(alloc, &journal),
            Err(_) => Ok(Script::new(Vec::new(alloc))),
        }
    }

    // The verdict on a text.
    fn judged(&self, alloc: Global, text: &str) -> Result<String, AllocError> {
        let Ok(journal) = read_journal(alloc, text.as_bytes()) else {
            return String::from_str(alloc, "no journal");
        };
        let lines = version(text.as_bytes()) == 2;
        let script = self.script(alloc)?;
        let input = self.input.as_bytes();
        if input.len() > INPUT_BYTES as usize {
            return String::from_str(alloc, "input too long");
        }
        match judge(alloc, &self.sites, input, script, &journal, lines)? {
            Verdict::Yes => String::from_str(alloc, "yes"),
            Verdict::No { entry } => format!(in alloc; "not a run at entry {entry}"),
        }
    }
}

// The members of a clause, parted by commas.
fn members_of(alloc: Global, list: &str) -> Result<Members, AllocError> {
    let mut numbers = Vec::new(alloc);
    for number in list.split(',') {
        numbers.push(number.parse::<u8>().unwrap_or(0))?;
    }
    Ok(Members { numbers })
}
