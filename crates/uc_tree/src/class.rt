// Routines and classes, which contracts see as trees without pointers.

ghost use Rattle.std.specs.Prelude.{◌≡◌};
ghost use Rattle.uc_tree.specs.Numbering.{is_plain};
ghost use Rattle.uc_tree.specs.ProgramMain.{is_void, is_int, returns_as_main, is_main_sig};

use crate::declare::Declarator;
use crate::expr::Expr;
use crate::kinds::{Access, Base, Kind, MutexMark, Owner, Param, Role};
use crate::name::Name;
use crate::pos::Pos;
use crate::stmt::Stmt;
use std::marker::Model;

/// What a routine is called with and what it returns, with the place of its first token. A
/// constructor and a destructor return `void`.
#[derive(Drop)]
pub struct Sig {
    pub pos: Pos,
    pub owner: Owner,
    pub role: Role,
    pub ret: Base,
    pub name: Name,
    pub params: Vec<Param>,
}

impl Model for Sig {
    ghost use Rattle.uc_tree.specs.Programs.{Sig};
    ghost use Rattle.uc_tree.specs.ProgramCodes.{sig_coded};

    ghost Value = { Sig };

    ghost coded = { sig_coded };

    ghost view = { λ a. record { pos = a.pos; owner = a.owner; role = a.role; ret = a.ret; name = a.name; params = a.params.items } };
}

impl Sig {
    /// Whether this is the signature of the program's main, where it stands outside of classes: `void uMain::main()` or
    /// `int main()`.
    pub fn is_main(&self) -> bool
        ensures { result ≡ is_main_sig self.now }
    {
        returns_as_main(&self.owner, &self.ret)
            && (self.name.is(b"main") && (is_plain(self.role) && self.params.is_empty()))
    }
}

// What main returns: nothing in `uMain`, an `int` at the outer level.
fn returns_as_main(owner: &Owner, ret: &Base) -> bool
    ensures { result ≡ returns_as_main owner.now ret.now }
{
    match owner {
        Owner::Here => is_int(ret),
        Owner::Main => is_void(ret),
        Owner::Class(_) => false,
    }
}

fn is_void(base: &Base) -> bool
    ensures { result ≡ is_void base.now }
{
    match base {
        Base::Void => true,
        Base::Int => false,
        Base::Char => false,
        Base::Bool => false,
        Base::Condition => false,
        Base::Cluster => false,
        Base::Processor => false,
        Base::Named(_) => false,
    }
}

fn is_int(base: &Base) -> bool
    ensures { result ≡ is_int base.now }
{
    match base {
        Base::Void => false,
        Base::Int => true,
        Base::Char => false,
        Base::Bool => false,
        Base::Condition => false,
        Base::Cluster => false,
        Base::Processor => false,
        Base::Named(_) => false,
    }
}

fn is_plain(role: Role) -> bool
    ensures { result ≡ is_plain role }
{
    match role {
        Role::Plain => true,
        Role::Constructor => false,
        Role::Destructor => false,
    }
}

/// An initialiser of a field.
#[derive(Drop)]
pub struct Init {
    pub pos: Pos,
    pub name: Name,
    pub args: Vec<Expr>,
}

impl Model for Init {
    ghost use Rattle.uc_tree.specs.Expressions.{exprs_of};
    ghost use Rattle.uc_tree.specs.Programs.{Init};
    ghost use Rattle.uc_tree.specs.ProgramCodes.{init_coded};

    ghost Value = { Init };

    ghost coded = { init_coded };

    ghost view = { λ a. record { pos = a.pos; name = a.name; args = exprs_of a.args.items } };
}

/// A routine with its body, whose `{` stands at `brace`.
#[derive(Drop)]
pub struct Routine {
    pub sig: Sig,
    pub inits: Vec<Init>,
    pub brace: Pos,
    pub body: Vec<Stmt>,
}

impl Model for Routine {
    ghost use Rattle.uc_tree.specs.Statements.{stmts_of};
    ghost use Rattle.uc_tree.specs.Programs.{Routine};
    ghost use Rattle.uc_tree.specs.ProgramCodes.{routine_coded};

    ghost Value = { Routine };

    ghost coded = { routine_coded };

    ghost view = { λ a. record { sig = a.sig; inits = a.inits.items; brace = a.brace; body = stmts_of a.body.items } };
}

/// A member of a class, with the place of its first token.
#[derive(Drop)]
pub struct Member {
    pub pos: Pos,
    pub access: Access,
    pub mark: MutexMark,
    pub form: MemberForm,
}

impl Model for Member {
    ghost use Rattle.uc_tree.specs.Programs.{Member};
    ghost use Rattle.uc_tree.specs.ProgramCodes.{member_coded};

    ghost Value = { Member };

    ghost coded = { member_coded };

    ghost use Rattle.uc_tree.specs.ProgramViews.{member_form_at};

    ghost view = { λ a. record { pos = a.pos; access = a.access; mark = a.mark; form = member_form_at a.form } };
}

/// What a member is: fields of one base, which stands at `at`; a routine; or its signature alone.
#[derive(Drop)]
pub enum MemberForm {
    Fields {
        at: Pos,
        base: Base,
        declarators: Vec<Declarator>,
    },
    Routine {
        routine: Routine,
    },
    Proto {
        sig: Sig,
    },
}

/// A class, with the place of its first token.
#[derive(Drop)]
pub struct Class {
    pub pos: Pos,
    pub kind: Kind,
    pub name: Name,
    pub members: Vec<Member>,
}

impl Model for Class {
    ghost use Rattle.uc_tree.specs.Programs.{Class};
    ghost use Rattle.uc_tree.specs.ProgramCodes.{class_coded};

    ghost Value = { Class };

    ghost coded = { class_coded };

    ghost view = { λ a. record { pos = a.pos; kind = a.kind; name = a.name; members = a.members.items } };
}
