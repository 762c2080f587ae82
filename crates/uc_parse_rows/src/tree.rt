// Expressions written with all their parentheses.

use crate::bytes::text_of;
use std::alloc::{AllocError, Global};
use uc_tree::expr::{Expr, ExprForm, Link, Part, PartForm};

/// The expression: chains and assignments in `( )`, operators of one operand in `< >`, and roots with their parts in `{ }`.
/// Operators stand there by their names, those of assignments with a `=`.
#[cycle(expr)]
pub(crate) fn write_expr(alloc: Global, out: &mut String, e: &Expr) -> Result<(), AllocError> {
    match &e.form {
        ExprForm::Number { value } => out.push_str(format!(in alloc; "{value}")?.as_str()),
        ExprForm::Character { byte } => out.push_str(format!(in alloc; "#{byte}")?.as_str()),
        ExprForm::Truth { value } => out.push_str(format!(in alloc; "{value}")?.as_str()),
        ExprForm::Name { name } => out.push_str(text_of(alloc, name.bytes())?.as_str()),
        ExprForm::Cin => out.push_str("cin"),
        ExprForm::Postfix { root, parts } => {
            out.push_str("{")?;
            write_expr(alloc, out, root)?;
            write_parts(alloc, out, parts)?;
            out.push_str("}")
        }
        ExprForm::Unary { op, operand } => {
            out.push_str(format!(in alloc; "<{op:?} ")?.as_str())?;
            write_expr(alloc, out, operand)?;
            out.push_str(">")
        }
        ExprForm::Chain { first, rest } => {
            out.push_str("(")?;
            write_expr(alloc, out, first)?;
            write_links(alloc, out, rest)?;
            out.push_str(")")
        }
        ExprForm::Assign {
            op,
            place,
            value,
            ..
        } => {
            out.push_str("(")?;
            write_expr(alloc, out, place)?;
            out.push_str(format!(in alloc; " {op:?}= ")?.as_str())?;
            write_expr(alloc, out, value)?;
            out.push_str(")")
        }
    }
}

#[cycle(expr)]
fn write_parts(alloc: Global, out: &mut String, parts: &[Part]) -> Result<(), AllocError> {
    for part in parts {
        match &part.form {
            PartForm::Field { name } => {
                let name = text_of(alloc, name.bytes())?;
                out.push_str(format!(in alloc; " .{name}")?.as_str())?;
            }
            PartForm::Index { index } => {
                out.push_str(" [")?;
                write_expr(alloc, out, index)?;
                out.push_str("]")?;
            }
            PartForm::Call { args } => {
                out.push_str(" (")?;
                write_args(alloc, out, args)?;
                out.push_str(")")?;
            }
            PartForm::Step { op } => out.push_str(format!(in alloc; " {op:?}")?.as_str())?,
        }
    }
    Ok(())
}

// Arguments, each with a comma behind it.
#[cycle(expr)]
fn write_args(alloc: Global, out: &mut String, args: &[Expr]) -> Result<(), AllocError> {
    for arg in args {
        write_expr(alloc, out, arg)?;
        out.push_str(",")?;
    }
    Ok(())
}

#[cycle(expr)]
fn write_links(alloc: Global, out: &mut String, links: &[Link]) -> Result<(), AllocError> {
    for link in links {
        out.push_str(format!(in alloc; " {:?} ", link.op)?.as_str())?;
        write_expr(alloc, out, &link.right)?;
    }
    Ok(())
}
