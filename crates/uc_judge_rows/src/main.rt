// Judges journals of scripts. In the input a line `== TITLE` begins a row. Behind it stand the accept statements, a line
// `site ELSE CLAUSE..` for each: 1 or 0 for whether it has an `_Else`, and the members of each clause, parted by commas; and lines
// `input TEXT`, each a line of the input. Then comes the text of a journal: the tasks ask what it tells that they asked, or, behind
// `asks CHANGE`, what it tells with this change. Behind the journal stand changes, one a line, each of which is made alone:
//
// - `! N LINE`: entry N is this one;
// - `+ N LINE`: this one stands before entry N, or at the end;
// - `- N`: entry N is left out;
// - `< N`: the first N entries alone.
//
// The title is printed with the verdict on the journal, and each change with the verdict on the journal that it makes.
#![tactic(auto)]

mod asked;
mod change;
mod row;

use crate::change::Change;
use crate::row::Row;
use std::io;

fn main(rt: HostRuntime) -> io::Result<()> {
    let alloc = rt.alloc();
    let mut row = Row::new(alloc);
    for line in rt.lines(alloc) {
        let line = line?;
        let line = line.as_str();
        if line.starts_with("== ") {
            print!(rt; "{}", row.answer(alloc)?)?;
            println!(rt; "{line}")?;
            row = Row::new(alloc);
        } else if let Some(site) = line.strip_prefix("site ") {
            row.add_site(alloc, site)?;
        } else if let Some(input) = line.strip_prefix("input ") {
            row.add_input(input)?;
        } else if let Some(change) = line.strip_prefix("asks ") {
            row.ask(Change::read(alloc, change)?);
        } else if let Some(change) = Change::read(alloc, line)? {
            row.add_change(change)?;
        } else {
            row.add_entry(alloc, line)?;
        }
    }
    print!(rt; "{}", row.answer(alloc)?)?;
    Ok(())
}
