// The laws of expressions that break no rule: each is a function whose contract is the law.

ghost use Rattle.std.specs.Prelude.{List};
ghost use Rattle.uc_sound.specs.Agreement.{LawAgrees};
ghost use Rattle.uc_sound.specs.Declarations.{LawDeclared};
ghost use Rattle.uc_sound.specs.Fields.{LawFields};
ghost use Rattle.uc_sound.specs.ItemNames.{LawItems};
ghost use Rattle.uc_sound.specs.Parts.{LawParts};
ghost use Rattle.uc_sound.specs.PlainStatements.{LawPlain};
ghost use Rattle.uc_sound.specs.Unbroken.{LawStands};
ghost use Rattle.uc_typing.specs.Typing.{Name, Sig, Table};

/// What stands for something under the rules of the language is resolved to an expression of its
/// type, where the names in scope are, and both look-ups of other names and of members agree.
pub fn law_agrees()
    ensures { (t : Table) → (g : Sig) → (sc : List Name) → LawAgrees t g sc }
{}

/// An expression at which no rule of the language is broken stands for something, where what is
/// declared has a known base.
pub fn law_stands()
    ensures { LawStands }
{}

/// What statements ask of their expressions they get where no rule is broken: a condition, what is
/// returned and each printed item is a number, what is read into is the place of one, an event is
/// raised at an object, a task migrates to a cluster, and arguments are of the types of their
/// parameters.
pub fn law_parts()
    ensures { (t : Table) → (g : Sig) → (sc : List Name) → LawParts t g sc }
{}

/// A field that the rules find by its name is the one that it is resolved to, behind a path and in
/// its class itself, and it is found, or what it holds, at its place in the class: where a table
/// tells the class, the expression is of the type of what is declared.
pub fn law_fields()
    ensures { (t : Table) → (g : Sig) → (sc : List Name) → LawFields t g sc }
{}

/// What a declaration adds to the names of both look-ups agrees: a variable, what is known by its
/// number, an array, a parameter that is a reference. The names before it go on to agree, also where
/// one object more is in scope.
pub fn law_declared()
    ensures { (t : Table) → (g : Sig) → (sc : List Name) → LawDeclared t g sc }
{}

/// A statement that declares and enables nothing, and raises nothing but again what is handled, is in
/// order where no rule is broken in it: blocks, choices, loops, exits, prints, reads, switches,
/// accepting, handlers without a parameter and expressions, in one another.
pub fn law_plain()
    ensures { (t : Table) → (g : Sig) → (sc : List Name) → LawPlain t g sc }
{}

/// In a program that breaks no rule a name that no local and no member hides is resolved to what it
/// stands for: a constant to its value, and a routine, where a table tells the routines, to the one
/// of its number.
pub fn law_items()
    ensures { (t : Table) → (g : Sig) → (sc : List Name) → LawItems t g sc }
{}
