// What a judge answers.

/// Whether a journal is a run.
#[derive(Clone, Copy)]
pub enum Verdict {
    /// It is a complete run.
    Yes,
    /// It is none. The first `entry` entries are the start of a run and no entry more is; where
    /// there is no entry more, the run has no ending, or is cut within an act.
    No { entry: u32 },
}
