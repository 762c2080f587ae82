// What a draft tells of a scope that is left.

/// What was in scope before a scope was opened: how many names, and the number of the scope around it.
#[derive(Clone, Copy)]
pub struct OuterScope {
    pub names: usize,
    pub scope: u32,
}
