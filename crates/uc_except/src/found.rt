// What a search for a handler finds.

/// A handler: the activation in which it stands, by how many wait below it, and its row; or none.
#[derive(Clone, Copy)]
pub enum Found {
    Handler { frame: u32, row: u32 },
    None,
}
