// The text literals of a program.

ghost use Rattle.std.specs.Prelude.{◌≡◌, ◌++◌, ◌∷◌, [], IfOk, OnOk, map};
ghost use Rattle.uc_tree.specs.Gathered.{gathered_all};
ghost use Rattle.uc_tree.specs.Numbering.{item_texts, own_texts, texts_in, texts_of};
ghost use Rattle.uc_numbering.specs.Flat.{flat};
ghost use Rattle.uc_numbering.specs.Routines.{defined_at};

use crate::gathered::statements_of;
use crate::routines::{Defined, routines_of};
use std::alloc::{AllocError, Global};
use uc_tree::declare::{OutForm, OutItem};
use uc_tree::name::Text;
use uc_tree::program::Program;
use uc_tree::stmt::{Stmt, StmtForm};

fn push_items(alloc: Global, found: &mut Vec<Text>, items: &[OutItem]) -> Result<(), AllocError>
    ensures { OnOk result (found.new.items ≡ found.old.items ++ item_texts items.now) }
{
    for item in items {
        push_item(alloc, found, item)?;
    }
    Ok(())
}

fn push_item(alloc: Global, found: &mut Vec<Text>, item: &OutItem) -> Result<(), AllocError>
    ensures { OnOk result (found.new.items ≡ found.old.items ++ item_texts (item.now ∷ [])) }
{
    match &item.form {
        OutForm::Endl => Ok(()),
        OutForm::Literal { text } => {
            let copy = text.copy(alloc)?;
            found.push(copy)?;
            Ok(())
        }
        OutForm::Value { .. } => Ok(()),
    }
}

fn push_texts(alloc: Global, found: &mut Vec<Text>, s: &Stmt) -> Result<(), AllocError>
    ensures { OnOk result (found.new.items ≡ found.old.items ++ own_texts s.now) }
{
    match &s.form {
        StmtForm::Print { items } | StmtForm::PrintTogether { items } => {
            push_items(alloc, found, items)
        }
        StmtForm::Block { .. }
        | StmtForm::Empty
        | StmtForm::Evaluate { .. }
        | StmtForm::Declare { .. }
        | StmtForm::If { .. }
        | StmtForm::While { .. }
        | StmtForm::Do { .. }
        | StmtForm::For { .. }
        | StmtForm::Break
        | StmtForm::Continue
        | StmtForm::Return { .. }
        | StmtForm::Try { .. }
        | StmtForm::Throw { .. }
        | StmtForm::Raise { .. }
        | StmtForm::RaiseAt { .. }
        | StmtForm::Enable { .. }
        | StmtForm::Disable { .. }
        | StmtForm::Accept { .. }
        | StmtForm::Read { .. }
        | StmtForm::Resume
        | StmtForm::Suspend
        | StmtForm::Yield
        | StmtForm::Migrate { .. } => Ok(()),
    }
}

fn push_all(alloc: Global, found: &mut Vec<Text>, statements: &[&Stmt]) -> Result<(), AllocError>
    ensures { OnOk result (found.new.items
        ≡ found.old.items ++ flat own_texts (map (λ s. s.now) statements.now)) }
{
    for s in statements {
        push_texts(alloc, found, s)?;
    }
    Ok(())
}

#[tactic(auto, using(crate::proofs::FlatLemmas::flat_all))]
fn push_routine(alloc: Global, found: &mut Vec<Text>, defined: &Defined) -> Result<(), AllocError>
    ensures { OnOk result (found.new.items
        ≡ found.old.items ++ gathered_all own_texts (defined_at defined.now).routine.body) }
{
    let routine = defined.routine;
    let statements = statements_of(alloc, &routine.body)?;
    push_all(alloc, found, &statements)
}

fn texts_in(alloc: Global, routines: &[Defined]) -> Result<Vec<Text>, AllocError>
    ensures { IfOk result (λ v. v.items ≡ texts_in (map defined_at routines.now)) }
{
    let mut found = Vec::new(alloc);
    for defined in routines {
        push_routine(alloc, &mut found, defined)?;
    }
    Ok(found)
}

/// The text literals of a program, in textual order: the place of one is its number.
pub fn texts_of(alloc: Global, program: &Program) -> Result<Vec<Text>, AllocError>
    ensures { IfOk result (λ v. v.items ≡ texts_of program.now) }
{
    let routines = routines_of(alloc, program)?;
    texts_in(alloc, &routines)
}
