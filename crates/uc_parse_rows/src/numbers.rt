// The cells, the numbers and the `Size` of a program.

use crate::bytes::text_of;
use std::alloc::{AllocError, Global};
use uc_numbering::classes::{class_number, event_number, is_event};
use uc_numbering::conditions::{condition_count, condition_number, conditions_in};
use uc_numbering::members::{member_number, members_of};
use uc_numbering::routines::routines_of;
use uc_numbering::sites::sites_of;
use uc_numbering::texts::texts_of;
use uc_size::program::size_of_program;
use uc_layout::frames::cells_of_routine;
use uc_layout::lists::classes_in;
use uc_layout::sizes::Sizes;
use uc_tree::class::Class;
use uc_tree::program::Program;

/// The lines of its classes, its routines, its accept statements and its texts, and its `Size`. A number that there is not is 0.
pub(crate) fn numbers_of(alloc: Global, program: &Program) -> Result<String, AllocError> {
    let mut out = String::new(alloc);
    write_cells(alloc, &mut out, program)?;
    write_sites(alloc, &mut out, program)?;
    write_texts(alloc, &mut out, program)?;
    let size = size_of_program(program);
    out.push_str(format!(in alloc; "size {size}")?.as_str())?;
    Ok(out)
}

fn write_cells(alloc: Global, out: &mut String, program: &Program) -> Result<(), AllocError> {
    let sizes = Sizes::new(alloc, program)?;
    write_classes(alloc, out, &sizes, program)?;
    write_routines(alloc, out, &sizes, program)
}

fn write_classes(
    alloc: Global,
    out: &mut String,
    sizes: &Sizes,
    program: &Program,
) -> Result<(), AllocError> {
    let classes = classes_in(alloc, &program.items)?;
    for (place, class) in classes.iter().enumerate() {
        let name = text_of(alloc, class.name.bytes())?;
        let (kind, number) = if is_event(class.kind) {
            ("event", event_number(&classes, &class.name).map(u32::from))
        } else {
            ("class", class_number(&classes, &class.name))
        };
        let number = number.unwrap_or(0);
        let cells = sizes.cells_of_class(place);
        let line = format!(in alloc; "{kind} {name}: cells {cells}, number {number}")?;
        out.push_str(line.as_str())?;
        write_members(alloc, out, class)?;
        write_conditions(alloc, out, sizes, place, class)?;
        out.push_str("\n")?;
    }
    Ok(())
}

fn write_members(alloc: Global, out: &mut String, class: &Class) -> Result<(), AllocError> {
    let names = members_of(alloc, class)?;
    for name in &names {
        let number = member_number(&names, name).unwrap_or(0);
        let name = text_of(alloc, name.bytes())?;
        out.push_str(format!(in alloc; ", member {name} {number}")?.as_str())?;
    }
    Ok(())
}

fn write_conditions(
    alloc: Global,
    out: &mut String,
    sizes: &Sizes,
    place: usize,
    class: &Class,
) -> Result<(), AllocError> {
    let conditions = conditions_in(alloc, &class.members)?;
    if conditions.is_empty() {
        return Ok(());
    }
    for condition in &conditions {
        let number = condition_number(alloc, sizes, class, &condition.name)?.unwrap_or(0);
        let name = text_of(alloc, condition.name.bytes())?;
        out.push_str(format!(in alloc; ", condition {name} {number}")?.as_str())?;
    }
    let count = condition_count(alloc, sizes, place, class)?;
    out.push_str(format!(in alloc; " of {count}")?.as_str())
}

fn write_routines(
    alloc: Global,
    out: &mut String,
    sizes: &Sizes,
    program: &Program,
) -> Result<(), AllocError> {
    for defined in &routines_of(alloc, program)? {
        out.push_str("routine ")?;
        if let Some(class) = defined.class {
            let class = text_of(alloc, class.name.bytes())?;
            out.push_str(format!(in alloc; "{class}::")?.as_str())?;
        }
        let routine = defined.routine;
        let name = text_of(alloc, routine.sig.name.bytes())?;
        let cells = cells_of_routine(sizes, routine);
        let class = defined.number;
        let line = format!(in alloc; "{name}: cells {cells}, class {class}\n")?;
        out.push_str(line.as_str())?;
    }
    Ok(())
}

fn write_sites(alloc: Global, out: &mut String, program: &Program) -> Result<(), AllocError> {
    for site in &sites_of(alloc, program)? {
        out.push_str(format!(in alloc; "site: class {}", site.class)?.as_str())?;
        for clause in &site.clauses {
            out.push_str(", clause")?;
            for number in &clause.numbers {
                out.push_str(format!(in alloc; " {number}")?.as_str())?;
            }
        }
        out.push_str(if site.has_else { ", else\n" } else { "\n" })?;
    }
    Ok(())
}

fn write_texts(alloc: Global, out: &mut String, program: &Program) -> Result<(), AllocError> {
    for text in &texts_of(alloc, program)? {
        let text = text_of(alloc, text.bytes())?;
        out.push_str(format!(in alloc; "text: {text}\n")?.as_str())?;
    }
    Ok(())
}
