// Changes of a journal's text.

use std::alloc::{AllocError, Global};

#[derive(Clone, Copy)]
enum Kind {
    Replaced,
    Inserted,
    LeftOut,
    Cut,
}

/// What is changed at an entry of this number, counted from 0.
#[derive(Drop)]
pub(crate) struct Change {
    line: String,
    kind: Kind,
    entry: usize,
    new: String,
}

impl Change {
    /// The change that a line tells, if it tells one.
    pub(crate) fn read(alloc: Global, line: &str) -> Result<Option<Change>, AllocError> {
        let Some((mark, rest)) = line.split_once(' ') else {
            return Ok(None);
        };
        let kind = match mark {
            "!" => Kind::Replaced,
            "+" => Kind::Inserted,
            "-" => Kind::LeftOut,
            "<" => Kind::Cut,
            _ => return Ok(None),
        };
        let (entry, new) = match rest.split_once(' ') {
            Some(parts) => parts,
            None => (rest, ""),
        };
        Ok(Some(Change {
            line: String::from_str(alloc, line)?,
            kind,
            entry: entry.parse::<usize>().unwrap_or(0),
            new: String::from_str(alloc, new)?,
        }))
    }

    /// The line that tells it.
    pub(crate) fn line(&self) -> &str {
        self.line.as_str()
    }

    /// The text of a journal with this change, where these are the lines of its entries.
    pub(crate) fn made(
        &self,
        alloc: Global,
        heading: &str,
        entries: &[String],
    ) -> Result<String, AllocError> {
        let mut text = String::from_str(alloc, heading)?;
        for (at, entry) in entries.iter().enumerate() {
            let is_there = at == self.entry;
            match self.kind {
                Kind::Replaced => {
                    let line = if is_there { &self.new } else { entry };
                    put(&mut text, line.as_str())?;
                }
                Kind::Inserted => {
                    if is_there {
                        put(&mut text, self.new.as_str())?;
                    }
                    put(&mut text, entry.as_str())?;
                }
                Kind::LeftOut => {
                    if !is_there {
                        put(&mut text, entry.as_str())?;
                    }
                }
                Kind::Cut => {
                    if at < self.entry {
                        put(&mut text, entry.as_str())?;
                    }
                }
            }
        }
        if matches!(self.kind, Kind::Inserted) && self.entry == entries.len() {
            put(&mut text, self.new.as_str())?;
        }
        Ok(text)
    }
}

/// Puts a line and its newline behind a text.
pub(crate) fn put(text: &mut String, line: &str) -> Result<(), AllocError> {
    text.push_str(line)?;
    text.push('\n')?;
    Ok(())
}
