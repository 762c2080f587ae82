// The rows of guarded blocks.

ghost use Rattle.std.specs.Prelude.{◌≡◌, ◌<◌, ℕ, List, length, OnOk};
ghost use Rattle.uc_code.specs.declared.rows.CodeMark.{CodeMark};
ghost use Rattle.uc_code.specs.Layout.{guards};
ghost use Rattle.uc_code.specs.Guarding.{ClosesGuards, OpensGuards};

use crate::draft::Draft;
use crate::rows::Opening;
use std::alloc::AllocError;

/// Opens a row for each of so many handlers of a guarded block: what is lowered from now on stands in it. The last handler has the
/// first row. After want of memory the draft is spent.
pub fn open_guards(count: usize, out: &mut Draft) -> Result<(), AllocError>
    ensures { OnOk result (OpensGuards count out.old out.new) }
{
    for _ in 0..count {
        out.open(Opening::Handler)?;
    }
    Ok(())
}

/// Closes these rows, where the statements of the guarded block end.
pub fn close_guards(count: usize, out: &mut Draft)
    requires { 0 < length out.old.ops }
    ensures { (first : ℕ) (ms : List CodeMark) → out.old.marks ≡ guards first count ms →
        ClosesGuards first count ms out.old out.new }
{
    for _ in 0..count {
        out.close(0);
    }
}
