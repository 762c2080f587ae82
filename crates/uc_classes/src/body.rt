// The rules on routines: signatures, initialisers and bodies.

ghost use Rattle.std.specs.Prelude.{◌≡◌, [], ◌∷◌, OnOk};
ghost use Rattle.uc_rules.specs.ProgramVisits.{base_visits, body_visits, params_visits, routine_visits, sig_visits};
ghost use Rattle.uc_rules.specs.Scopes.{with_params};
ghost use Rattle.uc_rules.specs.Visits.{AtBase, AtParam};
ghost use Rattle.uc_types.specs.FirstBreak.{with_visits};

use crate::ask::{ask_inits, ask_param, ask_sig};
use crate::init::check_inits;
use std::alloc::AllocError;
use uc_check_stmt::judge::ask_base;
use uc_check_stmt::stmt::check_stmts;
use uc_tree::class::{Routine, Sig};
use uc_tree::kinds::Param;
use uc_types::found::Found;
use uc_types::names::Names;
use uc_types::sort::is_plain;

fn check_returned(names: &Names, sig: &Sig, found: &mut Found)
    ensures { found.new ≡ with_visits found.old (base_visits names.now sig.now) }
{
    if is_plain(sig.role) {
        ask_base(names, &sig.ret, sig.pos, found);
    }
}

fn check_param(names: &Names, param: &Param, found: &mut Found)
    ensures { found.new ≡ with_visits found.old (AtBase names.now param.now.pos param.now.base
        ∷ (AtParam names.now param.now ∷ [])) }
{
    ask_base(names, &param.base, param.pos, found);
    ask_param(names, param, found);
}

#[tactic(auto, using(uc_check_stmt::proofs::Joined::joining))]
fn check_params(names: &mut Names, params: &[Param], found: &mut Found) -> Result<(), AllocError>
    ensures names { OnOk result (names.new ≡ with_params names.old params.now) }
    ensures breaks { OnOk result (found.new
        ≡ with_visits found.old (params_visits names.old params.now)) }
{
    for param in params {
        check_param(names, param, found);
        names.add_param(param)?;
    }
    Ok(())
}

/// A signature; its parameters are then in scope.
#[tactic(auto, using(uc_check_stmt::proofs::Joined::joining))]
pub fn check_sig(names: &mut Names, sig: &Sig, found: &mut Found) -> Result<(), AllocError>
    ensures names { OnOk result (names.new ≡ with_params names.old sig.now.params) }
    ensures breaks { OnOk result (found.new
        ≡ with_visits found.old (sig_visits names.old sig.now)) }
{
    check_returned(names, sig, found);
    ask_sig(names, sig, found);
    check_params(names, &sig.params, found)
}

#[tactic(auto, using(uc_check_stmt::proofs::Joined::joining))]
fn check_body(names: &mut Names, routine: &Routine, found: &mut Found) -> Result<(), AllocError>
    ensures { OnOk result (found.new ≡ with_visits found.old (body_visits names.old routine.now)) }
{
    ask_inits(names, &routine.sig, &routine.inits, found)?;
    check_inits(names, &routine.inits, found);
    check_stmts(names, &routine.body, found)
}

/// A routine where no local is in scope yet.
#[tactic(auto, using(uc_check_stmt::proofs::Joined::joining))]
pub fn check_routine(
    names: &mut Names,
    routine: &Routine,
    found: &mut Found,
) -> Result<(), AllocError>
    ensures { OnOk result (found.new
        ≡ with_visits found.old (routine_visits names.old routine.now)) }
{
    check_sig(names, &routine.sig, found)?;
    check_body(names, routine, found)
}
