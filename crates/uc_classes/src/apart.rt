// The rules on names, types and places, and those on who owns what, each by themselves.

ghost use Rattle.std.specs.Prelude.{◌≡◌, [], IfErr, OnOk};
ghost use Rattle.uc_rules.specs.Breaks.{breaks_of};
ghost use Rattle.uc_rules.specs.FirstRule.{IsFaultOf};
ghost use Rattle.uc_rules.specs.Firsts.{is_owner_number};
ghost use Rattle.uc_classes.specs.Apart.{IsOwnerFault, IsTextFault, KeepsText};

use crate::check::first_break;
use std::alloc::Global;
use uc_rules::checked::RuleFault;
use uc_rules::rule::Break;
use uc_tree::program::Program;

fn is_owner_number(number: u8) -> bool
    ensures { result ≡ is_owner_number number }
{
    24 < number
}

fn fault_of(first: Break) -> RuleFault
    ensures { result ≡ RuleFault.Rule first.rule first.pos }
{
    RuleFault::Rule {
        rule: first.rule,
        pos: first.pos,
    }
}

/// Whether a program breaks none of the rules S1 to S24; else the first of these that it breaks.
#[tactic(auto, using(crate::proofs::First::firsts))]
pub fn check_classes(alloc: Global, program: &Program) -> Result<(), RuleFault>
    ensures kept { OnOk result (KeepsText program.now) }
    ensures broken { IfErr result (λ fault. IsFaultOf program.now fault) }
    ensures text { IfErr result (λ fault. IsTextFault fault) }
{
    match first_break(alloc, program) {
        Ok(Some(first)) => {
            if is_owner_number(first.rule.number()) {
                Ok(())
            } else {
                Err(fault_of(first))
            }
        }
        Ok(None) => Ok(()),
        Err(_) => Err(RuleFault::NoMemory),
    }
}

/// Whether a program, which breaks none of the rules S1 to S24, breaks none of O1 to O9 either; else the first of these that
/// it breaks.
#[tactic(auto, using(crate::proofs::First::firsts))]
pub fn check_owner(alloc: Global, program: &Program) -> Result<(), RuleFault>
    ensures kept { OnOk result (breaks_of program.now ≡ []) }
    ensures broken { IfErr result (λ fault. IsFaultOf program.now fault) }
    ensures owner { KeepsText program.now → IfErr result (λ fault. IsOwnerFault fault) }
{
    match first_break(alloc, program) {
        Ok(Some(first)) => Err(fault_of(first)),
        Ok(None) => Ok(()),
        Err(_) => Err(RuleFault::NoMemory),
    }
}
