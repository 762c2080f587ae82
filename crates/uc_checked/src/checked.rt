//! Programs that break no rule.
ghost use Rattle.std.specs.Prelude.{◌≡◌, [], Some, map, take};
ghost use Rattle.uc_tree.specs.declared.limits.TheConstants.{MEMBERS};
ghost use Rattle.uc_tree.specs.Numbering.{mutex_members, sites_of, texts_of};
ghost use Rattle.uc_tree.specs.Objects.{class_at};
ghost use Rattle.uc_tree.specs.Programs.{Class};
ghost use Rattle.uc_rules.specs.Breaks.{breaks_of};

use std::marker::Model;
use uc_layout::sizes::Sizes;
use uc_tree::name::{Name, Text};
use uc_tree::program::Program;
use uc_tree::site::Site;
use uc_types::tables::Tables;

/// A program that breaks no rule of the language, with what its names stand for, its cells and constants, and its accept
/// statements and text literals in textual order. Contracts see the program.
#[derive(Drop)]
pub struct Checked<'a> {
    tables: Tables<'a>,
    sites: Vec<Site>,
    texts: Vec<Text>,
}

impl<'a> Model for Checked<'a> {
    ghost use Rattle.uc_tree.specs.Programs.{Program};
    ghost use Rattle.uc_tree.specs.ProgramCodes.{program_coded};
    ghost use Rattle.uc_checked.specs.Unbroken.{IsUnbroken};

    ghost Value = { Program };

    ghost coded = { program_coded };

    ghost view = { λ a. a.tables };

    ghost invariant = { λ a. IsUnbroken a.tables a.sites.items a.texts.items };
}

impl<'a> Checked<'a> {
    /// A program that breaks no rule, by its tables; the lists are its accept statements and its text literals.
    pub fn new(tables: Tables<'a>, sites: Vec<Site>, texts: Vec<Text>) -> Checked<'a>
        requires unbroken { breaks_of tables ≡ [] }
        requires sites { sites.items ≡ sites_of tables }
        requires texts { texts.items ≡ texts_of tables }
        ensures { result ≡ tables.entry }
    {
        Checked {
            tables,
            sites,
            texts,
        }
    }

    /// The program.
    pub fn program(&self) -> &'a Program
        ensures same { result.now ≡ self.now }
        ensures unbroken { breaks_of self.now ≡ [] }
    {
        self.tables.program()
    }

    /// Its cells and constants.
    pub fn sizes(&self) -> &Sizes<'a>
        ensures { result.now ≡ self.now }
    {
        self.tables.sizes()
    }

    /// The names of the mutex members of the class with this place besides its destructor, as far as they have numbers.
    pub fn mutex_members(&self, class: usize) -> &[&Name]
        ensures { (c : Class) → class_at self.now class ≡ Some c →
            map (λ n. n.now) result.now ≡ take MEMBERS (mutex_members c) }
    {
        self.tables.mutex_members(class)
    }

    /// Its accept statements: the place of one is its number.
    pub fn sites(&self) -> &[Site]
        ensures { result.now ≡ sites_of self.now }
    {
        &self.sites
    }

    /// Its text literals: the place of one is its number.
    pub fn texts(&self) -> &[Text]
        ensures { result.now ≡ texts_of self.now }
    {
        &self.texts
    }
}
