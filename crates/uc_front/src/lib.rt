// Programs are checked by the rules of the language, and numbered; expressions have types at the places of a program.
#![tactic(auto)]

ghost use Rattle.std.specs.Prelude.{◌≡◌, [], IfErr, IfOk};
ghost use Rattle.uc_tree.specs.Numbering.{sites_of, texts_of};
ghost use Rattle.uc_rules.specs.Breaks.{breaks_of};
ghost use Rattle.uc_rules.specs.FirstRule.{IsFaultOf};

mod item;
mod outer;
pub mod place;
pub mod typed;
mod walk;

use std::alloc::Global;
use uc_checked::checked::Checked;
use uc_classes::check::first_break_by;
use uc_classes::tabled::tables_of;
use uc_numbering::sites::sites_of;
use uc_numbering::texts::texts_of;
use uc_rules::checked::RuleFault;
use uc_tree::name::Text;
use uc_tree::program::Program;
use uc_tree::site::Site;
use uc_types::tables::Tables;

// The accept statements and the text literals of a program that breaks no rule; else the first break.
#[tactic(auto, using(uc_classes::proofs::First::first_is, uc_classes::proofs::First::none_is))]
fn numbered(alloc: Global, tables: &Tables) -> Result<(Vec<Site>, Vec<Text>), RuleFault>
    ensures sites { IfOk result (λ lists. lists.0.items ≡ sites_of tables.now) }
    ensures texts { IfOk result (λ lists. lists.1.items ≡ texts_of tables.now) }
    ensures unbroken { IfOk result (λ lists. breaks_of tables.now ≡ []) }
    ensures broken { IfErr result (λ fault. IsFaultOf tables.now fault) }
{
    if let Some(first) = first_break_by(alloc, tables)? {
        return Err(RuleFault::Rule {
            rule: first.rule,
            pos: first.pos,
        });
    }
    let sites = sites_of(alloc, tables.program())?;
    let texts = texts_of(alloc, tables.program())?;
    Ok((sites, texts))
}

/// The program, with what was found out of it and its numbering, where it breaks no rule; else the first break, or want of memory.
pub fn check(alloc: Global, program: &Program) -> Result<Checked<'_>, RuleFault>
    ensures checked { IfOk result (λ checked. checked ≡ program.now) }
    ensures unbroken { IfOk result (λ checked. breaks_of program.now ≡ []) }
    ensures broken { IfErr result (λ fault. IsFaultOf program.now fault) }
{
    let tables = tables_of(alloc, program)?;
    match numbered(alloc, &tables) {
        Ok((sites, texts)) => Ok(Checked::new(tables, sites, texts)),
        Err(fault) => {
            drop(tables);
            Err(fault)
        }
    }
}
