// Places in a program text.

/// A place in a program text: its line and its column, both from 1, the column in bytes.
#[derive(Clone, Copy)]
pub struct Pos {
    pub line: u32,
    pub col: u32,
}
