// The act of what a task asks, and its end.

ghost use Rattle.std.specs.Prelude.{◌≡◌, ◌<◌, ◌≤◌, ◌^◌, ◌++◌, ◌∷◌, [], List, pos, false, OnOk, length, nat_le, take, drop};
ghost use Rattle.uc_tree.specs.declared.limits.TheConstants.{INPUT_BYTES};
ghost use Rattle.uc_acts.specs.Journal.{entry, is_over};
ghost use Rattle.uc_tree.specs.Programs.{Site};
ghost use Rattle.uc_entry.specs.declared.entry.EntryKind.TheVariants as variant;
ghost use Rattle.uc_acts.specs.Acts.{act, fitted, closing, is_faulty, verdict};
ghost use Rattle.uc_judge.specs.Asking.{IsWhole};
ghost use Rattle.uc_judge.specs.Ledgers.{IsLedger, asked_of};

use crate::actor::Actor;
use crate::ledger::Ledger;
use std::alloc::AllocError;
use uc_entry::entry::{Entry, EntryKind};
use uc_entry::request::Request;
use uc_tree::site::Site;

impl Ledger {
    /// Adds the act of what a task asks: its entries, the ending behind them, or the limit in place of an act for which there is no
    /// room. Behind an ending no more can be added.
    pub fn act(
        &mut self,
        sites: &[Site],
        input: &[u8],
        actor: Actor,
        request: &Request,
    ) -> Result<(), AllocError>
        requires ledger { IsLedger self.old sites.now }
        requires few { length self.old.entries.items < 2 ^ 32 }
        requires short { length input.now ≤ INPUT_BYTES }
        requires whole { IsWhole request.now }
        ensures entries { OnOk result (self.new.entries.items
            ≡ self.old.entries.items
            ++ act self.old.opts sites.now input.now self.old.entries.items actor.processor
            actor.task actor.ticks (asked_of actor request.now)) }
        ensures opts { OnOk result (self.new.opts ≡ self.old.opts) }
        ensures going { OnOk result (is_over self.new.entries.items ≡ false →
            IsLedger self.new sites.now) }
    {
        let from = self.entries.len();
        self.take_up(sites, input, actor, request)?;
        if self.is_full() {
            self.limit(from, actor)?;
            return Ok(());
        }
        if self.has_failed(from) {
            return Ok(());
        }
        self.close(from, actor)?;
        Ok(())
    }

    // Whether no entry more fits.
    fn is_full(&self) -> bool
        ensures full { result ≡ nat_le self.now.opts.entries (length self.now.entries.items) }
        ensures few { result ≡ false → length self.now.entries.items < 2 ^ 32 }
    {
        self.opts.entries as usize <= self.entries.len()
    }

    // Whether a fault is among the entries from a number on.
    fn has_failed(&self, from: usize) -> bool
        requires { from ≤ length self.now.entries.items }
        ensures { result ≡ is_faulty (drop from self.now.entries.items) }
    {
        has_fault(&self.entries[from..])
    }

    // Adds the ending, if the run ends, or the limit in place of the entries from a number on where it does not fit.
    fn close(&mut self, from: usize, actor: Actor) -> Result<(), AllocError>
        requires from { from ≤ length self.old.entries.items }
        requires few { length self.old.entries.items < 2 ^ 32 }
        requires room { length self.old.entries.items < self.old.opts.entries }
        ensures entries { OnOk result ((sites : List Site) → IsLedger self.old sites →
            self.new.entries.items
            ≡ take from self.old.entries.items
            ++ fitted self.old.opts (take from self.old.entries.items) actor.processor actor.task
            (drop from self.old.entries.items
            ++ closing actor.processor actor.task (verdict self.old.opts self.old.entries.items))) }
        ensures opts { OnOk result (self.new.opts ≡ self.old.opts) }
        ensures going { OnOk result ((sites : List Site) → IsLedger self.old sites →
            is_over self.new.entries.items ≡ false → IsLedger self.new sites) }
    {
        match self.ending() {
            Some(kind) => {
                self.stop(actor, kind)?;
                if self.is_full() {
                    self.limit(from, actor)?;
                }
                Ok(())
            }
            None => Ok(()),
        }
    }

    // Puts the limit in place of the entries from a number on.
    fn limit(&mut self, from: usize, actor: Actor) -> Result<(), AllocError>
        requires { from ≤ length self.old.entries.items }
        ensures entries { OnOk result (self.new.entries.items
            ≡ take from self.old.entries.items ++ entry variant.Limit actor.processor actor.task 0 0
            (pos 0) (pos 0) ∷ []) }
        ensures opts { OnOk result (self.new.opts ≡ self.old.opts) }
    {
        self.entries.truncate(from);
        self.stop(actor, EntryKind::Limit)?;
        Ok(())
    }

    // Adds an ending to the entries, and to nothing else.
    pub(crate) fn stop(&mut self, actor: Actor, kind: EntryKind) -> Result<(), AllocError>
        ensures entries { OnOk result (self.new.entries.items
            ≡ self.old.entries.items ++ entry kind actor.processor actor.task 0 0 (pos 0) (pos 0)
            ∷ []) }
        ensures opts { OnOk result (self.new.opts ≡ self.old.opts) }
    {
        self.entries.push(actor.ending(kind))?;
        Ok(())
    }
}

// Whether a fault is among entries.
fn has_fault(entries: &[Entry]) -> bool
    ensures { result ≡ is_faulty entries.now }
{
    entries.iter().any(|e| matches!(e.kind, EntryKind::Fault))
}
