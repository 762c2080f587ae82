// Writes the generated program.

ghost use Rattle.std.specs.Prelude.{◌≡◌, ◌≤◌, ◌++◌, IfOk, OnOk, decimal};
ghost use Rattle.uc_tree.specs.declared.limits.TheConstants.{MAKE_MAX};
ghost use Rattle.uc_make.specs.Generated as text;

use itoa::Buffer;
use std::alloc::{AllocError, Global};

const FRONT: &[u8] =
    b"_Monitor Total { int sum; public: void add(int n) { sum += n; } int get() { return sum; } };\n\
_Task Worker { Total & t; int n;\n\
void main() { for (int i = 1; i <= 10; i += 1) { t.add(n * i); yield(); } }\n\
public: Worker(Total & t, int n) : t(t), n(n) {} };\n\
void uMain::main() {\n\
Total t;\n\
{\n";

/// The program of `n` tasks, 1 to `uc_tree::limits::MAKE_MAX`, which docs/formats.md shows. The one error is want of memory.
pub fn make(alloc: Global, n: u32) -> Result<Vec<u8>, AllocError>
    requires least { 1 ≤ n }
    requires most { n ≤ MAKE_MAX }
    ensures { IfOk result (λ program. program.items ≡ text.generated n) }
{
    let mut program = Vec::new(alloc);
    program.extend_from_slice(FRONT)?;
    put_workers(&mut program, n)?;
    put_end(&mut program, n)?;
    Ok(program)
}

// Appends the declarations of the workers 1 to `n`.
fn put_workers(program: &mut Vec<u8>, n: u32) -> Result<(), AllocError>
    requires { n ≤ MAKE_MAX }
    ensures { OnOk result (program.new.items ≡ program.old.items ++ text.workers n) }
{
    for before in 0..n {
        put_worker(program, before + 1)?;
    }
    Ok(())
}

// Appends the declaration of one worker.
fn put_worker(program: &mut Vec<u8>, k: u32) -> Result<(), AllocError>
    ensures { OnOk result (program.new.items ≡ program.old.items ++ text.worker k) }
{
    program.extend_from_slice(b"Worker w")?;
    put_number(program, k)?;
    program.extend_from_slice(b"(t, ")?;
    put_number(program, k)?;
    program.extend_from_slice(b");\n")?;
    Ok(())
}

// Appends what stands behind the workers.
fn put_end(program: &mut Vec<u8>, n: u32) -> Result<(), AllocError>
    ensures { OnOk result (program.new.items ≡ program.old.items ++ text.end n) }
{
    program.extend_from_slice(b"}\ncout << \"tasks \" << ")?;
    put_number(program, n)?;
    program.extend_from_slice(b" << \" total \" << t.get() << endl;\n}\n")?;
    Ok(())
}

// Appends a number.
fn put_number(program: &mut Vec<u8>, number: u32) -> Result<(), AllocError>
    ensures { OnOk result (program.new.items ≡ program.old.items ++ decimal number) }
{
    let mut buffer = Buffer::new();
    program.extend_from_slice(buffer.format(number).as_bytes())?;
    Ok(())
}
