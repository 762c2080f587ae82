// The first rule that a program breaks.

ghost use Rattle.std.specs.Prelude.{◌≡◌, None, IfOk};
ghost use Rattle.uc_rules.specs.Breaks.{breaks_of};
ghost use Rattle.uc_rules.specs.Firsts.{after};

use crate::ask::ask_program;
use crate::item::check_items;
use crate::tabled::tables_of;
use std::alloc::{AllocError, Global};
use uc_check_index::index::Index;
use uc_rules::rule::Break;
use uc_tree::program::Program;
use uc_types::found::Found;
use uc_types::tables::Tables;

// With the tables of the names and of the items.
fn first_among(alloc: Global, tables: &Tables, index: &Index) -> Result<Option<Break>, AllocError>
    requires { index.now ≡ tables.now }
    ensures { IfOk result (λ first. first ≡ after None (breaks_of tables.now)) }
{
    let mut found = Found::new();
    ask_program(tables.program(), &mut found);
    check_items(alloc, tables, index, &mut found)?;
    Ok(found.first())
}

/// The first break of a rule, where the program of these tables breaks one.
pub fn first_break_by(alloc: Global, tables: &Tables) -> Result<Option<Break>, AllocError>
    ensures { IfOk result (λ first. first ≡ after None (breaks_of tables.now)) }
{
    let index = Index::new(alloc, tables.program())?;
    let first = first_among(alloc, tables, &index);
    // Tables are dropped by name: at the end of a function they would be taken apart there, table by table.
    drop(index);
    first
}

/// The first break of a rule, where a program breaks one.
pub fn first_break(alloc: Global, program: &Program) -> Result<Option<Break>, AllocError>
    ensures { IfOk result (λ first. first ≡ after None (breaks_of program.now)) }
{
    let tables = tables_of(alloc, program)?;
    let first = first_break_by(alloc, &tables);
    drop(tables);
    first
}
