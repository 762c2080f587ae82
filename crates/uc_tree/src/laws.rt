// The laws of trees: each is a function whose contract is the law.

ghost use Rattle.uc_tree.specs.Laws.{LawCells, LawPaths};

/// An object takes as many cells as are counted for its class, and none where the class has itself in its fields.
pub fn law_cells()
    ensures { LawCells }
{}

/// Two scalars of an object never share a cell, and each lies within the object's cells.
pub fn law_paths()
    ensures { LawPaths }
{}
