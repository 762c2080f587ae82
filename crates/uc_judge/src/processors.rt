// The processors.

ghost use Rattle.std.specs.Prelude.{◌≡◌, ◌==◌, ◌++◌, ◌∷◌, [], OnOk, IfOk, map};
ghost use Rattle.std.specs.List.{list_any, range_with_len};
ghost use Rattle.uc_entry.specs.declared.entry.Options.{Options};
ghost use Rattle.uc_acts.specs.Fit.{IsFit};
ghost use Rattle.uc_acts.specs.Journal.{Journal};
ghost use Rattle.uc_acts.specs.Queues.{processors, open_processors, cluster_in};
ghost use Rattle.uc_judge.specs.ProcessorRows.{AreProcessors};

use crate::effects::number;
use std::alloc::{AllocError, Global};
use uc_entry::entry::{Entry, EntryKind, Options};

/// The processors behind the entries that were added, and those of them that are not closed.
#[derive(Drop)]
pub struct Processors {
    // Each with its cluster.
    all: Vec<(u32, u32)>,
    opened: Vec<(u32, u32)>,
    closed: Vec<u32>,
}

impl Processors {
    /// Of a journal without entries.
    pub fn new(alloc: Global, opts: &Options) -> Result<Processors, AllocError>
        ensures { IfOk result (λ s. AreProcessors s opts.now []) }
    {
        let all = opening(alloc, opts.processors)?;
        let opened = opening(alloc, opts.processors)?;
        Ok(Processors {
            all,
            opened,
            closed: Vec::new(alloc),
        })
    }

    /// Adds the next entry of the journal. After want of memory it is spent.
    pub fn add(&mut self, e: &Entry) -> Result<(), AllocError>
        requires { IsFit e.now }
        ensures { OnOk result ((opts : Options) (j : Journal) → AreProcessors self.old opts j →
            AreProcessors self.new opts (j ++ e.now ∷ [])) }
    {
        match e.kind {
            EntryKind::Processor => {
                let row = (number(e.a) as u32, number(e.b) as u32);
                self.all.push(row)?;
                if !is_among(row.0, &self.closed) {
                    self.opened.push(row)?;
                }
                Ok(())
            }
            EntryKind::ProcessorEnd => {
                let processor = number(e.a) as u32;
                self.closed.push(processor)?;
                self.opened.retain(|row| row.0 != processor);
                Ok(())
            }
            _ => Ok(()),
        }
    }

    /// Those that are not closed, each with its cluster.
    pub fn open(&self) -> &[(u32, u32)]
        ensures { (opts : Options) (j : Journal) → AreProcessors self.now opts j →
            result.now ≡ open_processors opts j }
    {
        &self.opened
    }

    /// The cluster of a processor, closed or not, or 0.
    pub fn cluster_of(&self, processor: u32) -> u32
        ensures { (opts : Options) (j : Journal) → AreProcessors self.now opts j →
            result ≡ cluster_in processor (processors opts j) }
    {
        cluster_in(&self.all, processor)
    }

    /// Whether one that is not closed is on a cluster.
    pub fn serve(&self, cluster: u32) -> bool
        ensures { (opts : Options) (j : Journal) → AreProcessors self.now opts j →
            result ≡ list_any (λ x. x.1 == cluster) (open_processors opts j) }
    {
        has_cluster(&self.opened, cluster)
    }
}

// The opening processors, on the cluster 0.
fn opening(alloc: Global, count: u32) -> Result<Vec<(u32, u32)>, AllocError>
    ensures { IfOk result (λ rows. rows.items ≡ map (λ p. (p, 0)) (range_with_len 0 count)) }
{
    let mut rows = Vec::new(alloc);
    for number in 0..count {
        rows.push((number, 0))?;
    }
    Ok(rows)
}

// Whether a number is among others.
fn is_among(number: u32, others: &[u32]) -> bool
    ensures { result ≡ list_any (λ x. x == number) others.now }
{
    others.iter().any(|other| *other == number)
}

// Whether one of some processors is on a cluster.
fn has_cluster(rows: &[(u32, u32)], cluster: u32) -> bool
    ensures { result ≡ list_any (λ x. x.1 == cluster) rows.now }
{
    rows.iter().any(|row| row.1 == cluster)
}

// The cluster of a processor among these, or 0.
fn cluster_in(rows: &[(u32, u32)], processor: u32) -> u32
    ensures { result ≡ cluster_in processor rows.now }
{
    for row in rows {
        if row.0 == processor {
            return row.1;
        }
    }
    0
}
