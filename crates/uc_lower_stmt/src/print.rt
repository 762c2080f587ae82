// The code of printing and reading.

ghost use Rattle.std.specs.Prelude.{◌≡◌, ◌+◌, ◌-◌, ◌*◌, ◌≤◌, ◌<◌, [], ◌∷◌, map, length, OnOk, IfOk};
ghost use Rattle.uc_tree.specs.declared.limits.TheConstants.{OPS_FOR_SIZE, PROGRAM_OPS, PROGRAM_SIZE};
ghost use Rattle.uc_tree.specs.Expressions.{exprs_of};
ghost use Rattle.uc_tree.specs.ExpressionSizes.{expr_size, exprs_size};
ghost use Rattle.uc_tree.specs.StatementSizes.{out_item_size, out_items_size};
ghost use Rattle.uc_tree.specs.Numbering.{item_texts};
ghost use Rattle.uc_resolve.specs.Resolve.{items_meant, target_meant, targets_meant};
ghost use Rattle.uc_code.specs.Lowered.{item_op};
ghost use Rattle.uc_lower_expr.specs.DraftGrowth.{Adds};
ghost use Rattle.uc_lower_expr.specs.Contexts.{context_in};
ghost use Rattle.uc_lower_stmt.specs.LowersStatement.{Lowers, scope_of};
ghost use Rattle.uc_lower_stmt.specs.Pieces.{ItemsCode, ValuesCode, PiecesCode, TogetherCode, TargetsCode, form_as};

use std::alloc::{AllocError, Global};
use uc_code::draft::Draft;
use uc_code::op::Op;
use uc_lower_expr::expr::{lower_expr, lower_value};
use uc_lower_expr::meaning::Scalar;
use uc_lower_expr::program_names::ProgramNames;
use uc_lower_expr::put::put;
use uc_tree::declare::{OutForm, OutItem};
use uc_tree::expr::Expr;
use uc_tree::kinds::ValueForm;

// A `char` is printed and read as a character, all else as a number.
fn form(scalar: Scalar) -> ValueForm
    ensures { result ≡ form_as scalar }
{
    match scalar {
        Scalar::Number => ValueForm::Number,
        Scalar::Character => ValueForm::Character,
        Scalar::Truth => ValueForm::Number,
        Scalar::Binding => ValueForm::Number,
    }
}

// The value of an item, and the op that prints it.
fn lower_piece(
    item: &OutItem,
    line: u32,
    names: &ProgramNames,
    out: &mut Draft,
) -> Result<Op, AllocError>
    requires room { length out.old.ops + OPS_FOR_SIZE * out_item_size item.now ≤ PROGRAM_OPS }
    requires texts { out.old.texts < PROGRAM_SIZE }
    ensures code { OnOk result (Lowers 0 (OPS_FOR_SIZE * out_item_size item.now - 1)
        (out_item_size item.now) 0 0 (ValuesCode line out.old.marks
        (items_meant (context_in names.now out.old) out.old.texts (item.now ∷ [])))
        (record (scope_of out.old) { texts = out.old.texts + length (item_texts (item.now ∷ [])) })
        out.old out.new) }
    ensures op { IfOk result (λ op. op ∷ [] ≡ map item_op
        (items_meant (context_in names.now out.old) out.old.texts (item.now ∷ []))) }
{
    match &item.form {
        OutForm::Endl => {
            put(Op::Push(10), line, out)?;
            Ok(Op::Print(ValueForm::Character))
        }
        OutForm::Literal { .. } => Ok(Op::Text(out.add_text())),
        OutForm::Value { value } => {
            let told = lower_value(value, line, names, out)?;
            Ok(Op::Print(form(told.scalar)))
        }
    }
}

fn lower_item(
    item: &OutItem,
    line: u32,
    names: &ProgramNames,
    out: &mut Draft,
) -> Result<(), AllocError>
    requires room { length out.old.ops + OPS_FOR_SIZE * out_item_size item.now ≤ PROGRAM_OPS }
    requires texts { out.old.texts < PROGRAM_SIZE }
    ensures { OnOk result (Lowers 0 (OPS_FOR_SIZE * out_item_size item.now) (out_item_size item.now)
        0 0 (ItemsCode line out.old.marks
        (items_meant (context_in names.now out.old) out.old.texts (item.now ∷ [])))
        (record (scope_of out.old) { texts = out.old.texts + length (item_texts (item.now ∷ [])) })
        out.old out.new) }
{
    let op = lower_piece(item, line, names, out)?;
    put(op, line, out)?;
    Ok(())
}

/// Adds the code that prints items one by one. After want of memory the draft is spent.
pub fn lower_items(
    items: &[OutItem],
    line: u32,
    names: &ProgramNames,
    out: &mut Draft,
) -> Result<(), AllocError>
    requires room { length out.old.ops + OPS_FOR_SIZE * out_items_size items.now ≤ PROGRAM_OPS }
    requires texts { out.old.texts + out_items_size items.now ≤ PROGRAM_SIZE }
    ensures { OnOk result (Lowers 0 (OPS_FOR_SIZE * out_items_size items.now)
        (out_items_size items.now) 0 0 (ItemsCode line out.old.marks
        (items_meant (context_in names.now out.old) out.old.texts items.now))
        (record (scope_of out.old) { texts = out.old.texts + length (item_texts items.now) })
        out.old out.new) }
{
    for item in items {
        lower_item(item, line, names, out)?;
    }
    Ok(())
}

// The values of items, and the ops that print them.
fn lower_pieces(
    alloc: Global,
    items: &[OutItem],
    line: u32,
    names: &ProgramNames,
    out: &mut Draft,
) -> Result<Vec<Op>, AllocError>
    requires room { length out.old.ops + OPS_FOR_SIZE * out_items_size items.now ≤ PROGRAM_OPS }
    requires texts { out.old.texts + out_items_size items.now ≤ PROGRAM_SIZE }
    ensures code { OnOk result (Lowers 0
        (OPS_FOR_SIZE * out_items_size items.now - length items.now) (out_items_size items.now) 0 0
        (ValuesCode line out.old.marks
        (items_meant (context_in names.now out.old) out.old.texts items.now))
        (record (scope_of out.old) { texts = out.old.texts + length (item_texts items.now) })
        out.old out.new) }
    ensures ops { IfOk result (λ pieces. pieces.items ≡ map item_op
        (items_meant (context_in names.now out.old) out.old.texts items.now)) }
{
    let mut pieces = Vec::new(alloc);
    for item in items {
        let op = lower_piece(item, line, names, out)?;
        pieces.push(op)?;
    }
    Ok(pieces)
}

// These ops, the last one first.
fn put_pieces(pieces: &[Op], line: u32, out: &mut Draft) -> Result<(), AllocError>
    requires { length out.old.ops + length pieces.now ≤ PROGRAM_OPS }
    ensures { OnOk result (Adds (length pieces.now) (PiecesCode line pieces.now) out.old out.new) }
{
    let mut left = pieces.len();
    while left > 0 {
        left -= 1;
        put(pieces[left], line, out)?;
    }
    Ok(())
}

/// Adds the code that prints items at once. After want of memory the draft is spent.
pub fn lower_together(
    alloc: Global,
    items: &[OutItem],
    line: u32,
    names: &ProgramNames,
    out: &mut Draft,
) -> Result<(), AllocError>
    requires room { length out.old.ops + OPS_FOR_SIZE * (1 + out_items_size items.now) ≤
        PROGRAM_OPS }
    requires texts { out.old.texts + out_items_size items.now ≤ PROGRAM_SIZE }
    ensures { OnOk result (Lowers 0 (OPS_FOR_SIZE * (1 + out_items_size items.now))
        (out_items_size items.now) 0 0 (TogetherCode line out.old.marks
        (items_meant (context_in names.now out.old) out.old.texts items.now))
        (record (scope_of out.old) { texts = out.old.texts + length (item_texts items.now) })
        out.old out.new) }
{
    let pieces = lower_pieces(alloc, items, line, names, out)?;
    put(Op::Hold, line, out)?;
    put_pieces(&pieces, line, out)?;
    put(Op::Flush, line, out)?;
    Ok(())
}

fn lower_target(
    place: &Expr,
    line: u32,
    names: &ProgramNames,
    out: &mut Draft,
) -> Result<(), AllocError>
    requires { length out.old.ops + OPS_FOR_SIZE * expr_size place.now ≤ PROGRAM_OPS }
    ensures { OnOk result (Adds (OPS_FOR_SIZE * expr_size place.now)
        (TargetsCode line out.old.marks (target_meant (context_in names.now out.old) place.now ∷
        [])) out.old out.new) }
{
    let told = lower_expr(place, line, names, out)?;
    put(Op::Read(form(told.scalar)), line, out)?;
    put(Op::Store, line, out)?;
    Ok(())
}

/// Adds the code that reads into places. After want of memory the draft is spent.
pub fn lower_targets(
    places: &[Expr],
    line: u32,
    names: &ProgramNames,
    out: &mut Draft,
) -> Result<(), AllocError>
    requires { length out.old.ops + OPS_FOR_SIZE * exprs_size (exprs_of places.now) ≤ PROGRAM_OPS }
    ensures { OnOk result (Adds (OPS_FOR_SIZE * exprs_size (exprs_of places.now))
        (TargetsCode line out.old.marks (targets_meant (context_in names.now out.old)
        (exprs_of places.now))) out.old out.new) }
{
    for place in places {
        lower_target(place, line, names, out)?;
    }
    Ok(())
}
