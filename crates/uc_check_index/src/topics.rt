// The topics on which items and members stand in tables.

/// The topics on which an item stands in a table under a name: as a class, a forward class, a routine of no class, a
/// prototype, a constant, or as a constructor that stands outside of its class and has a statement, under the name of that
/// class.
#[derive(Clone, Copy)]
pub enum NameTopic {
    Class,
    Forward,
    Routine,
    Proto,
    Constant,
    Builder,
}

/// The topics on which an item stands in a table under a key that is made: a class by its kind and name, a prototype and a
/// routine of no class by its signature, and a routine that stands outside of its class by class, role and name, or by class
/// and signature.
#[derive(Clone, Copy)]
pub enum KeyTopic {
    Class,
    Proto,
    Routine,
    Member,
    MemberSig,
}

/// The topics on which the prototype of a member stands in a table: by its role and name, or by its signature.
#[derive(Clone, Copy)]
pub enum MemberTopic {
    Role,
    Sig,
}
