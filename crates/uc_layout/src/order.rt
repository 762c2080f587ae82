// An order of constants in which each comes behind those that it names, as far as there is one. It only saves work: the
// values do not depend on it.

use crate::places::Constants;
use std::alloc::{AllocError, Global};
use uc_tree::expr::{Expr, ExprForm, Link};

// Adds the places of the constants that an expression names.
#[cycle(uses)]
fn push_uses(uses: &mut Vec<usize>, constants: &Constants, e: &Expr) -> Result<(), AllocError> {
    match &e.form {
        ExprForm::Number { .. } => Ok(()),
        ExprForm::Character { .. } => Ok(()),
        ExprForm::Truth { .. } => Ok(()),
        ExprForm::Name { name } => {
            if let Some(place) = constants.place_of(name) {
                uses.push(place)?;
            }
            Ok(())
        }
        ExprForm::Cin => Ok(()),
        ExprForm::Postfix { .. } => Ok(()),
        ExprForm::Unary { operand, .. } => {
            push_uses(uses, constants, operand)?;
            Ok(())
        }
        ExprForm::Chain { first, rest } => {
            push_uses(uses, constants, first)?;
            push_link_uses(uses, constants, rest)
        }
        ExprForm::Assign { .. } => Ok(()),
    }
}

#[cycle(uses)]
fn push_link_uses(
    uses: &mut Vec<usize>,
    constants: &Constants,
    links: &[Link],
) -> Result<(), AllocError> {
    for link in links {
        push_uses(uses, constants, &link.right)?;
    }
    Ok(())
}

fn uses_of(alloc: Global, constants: &Constants) -> Result<Vec<Vec<usize>>, AllocError> {
    let mut all = Vec::new(alloc);
    for constant in constants.list {
        let mut uses = Vec::new(alloc);
        push_uses(&mut uses, constants, &constant.value)?;
        all.push(uses)?;
    }
    Ok(all)
}

// A step of the walk: a constant is entered, or it is left when all that it names were left.
#[derive(Clone, Copy)]
enum Step {
    Enter(usize),
    Leave(usize),
}

// Enters a constant that was not entered before.
fn enter(
    all: &[Vec<usize>],
    seen: &mut [bool],
    path: &mut Vec<Step>,
    place: usize,
) -> Result<(), AllocError> {
    if place >= seen.len() || seen[place] {
        return Ok(());
    }
    seen[place] = true;
    path.push(Step::Leave(place))?;
    if let Some(uses) = all.get(place) {
        for used in uses {
            path.push(Step::Enter(*used))?;
        }
    }
    Ok(())
}

// Walks from the steps of a path until it is empty, or so many steps.
fn walk(
    all: &[Vec<usize>],
    seen: &mut [bool],
    path: &mut Vec<Step>,
    order: &mut Vec<usize>,
    steps: u64,
) -> Result<(), AllocError> {
    for _step in 0..steps {
        match path.pop() {
            Some(Step::Enter(place)) => enter(all, seen, path, place)?,
            Some(Step::Leave(place)) => order.push(place)?,
            None => return Ok(()),
        }
    }
    Ok(())
}

/// The places of these constants, in an order in which each comes behind those that it names where that can be.
pub fn order_of(alloc: Global, constants: &Constants) -> Result<Vec<usize>, AllocError> {
    let all = uses_of(alloc, constants)?;
    let mut seen = vec![in alloc; false; constants.list.len()]?;
    let mut path = Vec::new(alloc);
    let mut order = Vec::new(alloc);
    for place in 0..constants.list.len() {
        path.push(Step::Enter(place))?;
        walk(&all, &mut seen, &mut path, &mut order, u64::MAX)?;
    }
    Ok(order)
}
