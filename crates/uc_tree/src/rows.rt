// What classes hold, as numbers: the classes of a program by their place among its items.

use std::marker::Model;

/// A class whose objects a field or a variable holds, by its place among the classes of the program,
/// events included. A plain object lies in the cells of its holder; a mutex object takes one cell.
#[derive(Clone, Copy)]
pub struct FieldClass {
    pub class: usize,
    pub plain: bool,
}

/// What one declarator holds: how many elements, and of which class where they are objects.
#[derive(Clone, Copy)]
pub struct FieldLayout {
    pub count: u32,
    pub object: Option<FieldClass>,
}

/// What a class holds: the cells before its fields, and the fields.
#[derive(Drop)]
pub struct ClassLayout {
    pub leading: u32,
    pub held: Vec<FieldLayout>,
}

impl Model for ClassLayout {
    ghost use Rattle.uc_tree.specs.Rows.{ClassLayout, row_coded};

    ghost Value = { ClassLayout };

    ghost coded = { row_coded };

    ghost view = { λ a. record { leading = a.leading; held = a.held.items } };
}
