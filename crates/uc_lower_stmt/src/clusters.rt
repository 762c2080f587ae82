// Clusters and processors that are declared: each is asked for, and its place bound to its number.

ghost use Rattle.std.specs.Prelude.{◌≡◌, ◌+◌, ◌*◌, ◌≤◌, length, OnOk};
ghost use Rattle.uc_tree.specs.declared.limits.TheConstants.{OPS_FOR_SIZE, PROGRAM_OPS};
ghost use Rattle.uc_tree.specs.Expressions.{exprs_of};
ghost use Rattle.uc_tree.specs.ExpressionSizes.{exprs_size};
ghost use Rattle.uc_tree.specs.Source.{Bind, Expr as Place, NewCluster, NewProcessor, OfObject};
ghost use Rattle.uc_resolve.specs.Resolve.{args_meant, cluster_in};
ghost use Rattle.uc_code.specs.ObjectCalls.{BeginsAt};
ghost use Rattle.uc_lower_expr.specs.DraftGrowth.{Adds, ExprCode};
ghost use Rattle.uc_lower_expr.specs.Contexts.{context_in};

use crate::objects::spot_op;
use std::alloc::AllocError;
use uc_code::draft::Draft;
use uc_code::op::Op;
use uc_code::rows::ObjectSpot;
use uc_lower_expr::expr::lower_expr;
use uc_lower_expr::program_names::ProgramNames;
use uc_lower_expr::put::put;
use uc_tree::expr::Expr;

// A cluster is asked for.
pub(crate) fn open_cluster(spot: ObjectSpot, line: u32, out: &mut Draft) -> Result<(), AllocError>
    requires { length out.old.ops + 3 ≤ PROGRAM_OPS }
    ensures room { OnOk result (length out.new.ops ≤ length out.old.ops + 3) }
    ensures code { OnOk result ((place : Place) → BeginsAt place spot → Adds 3
        (ExprCode line out.old.marks (OfObject (Bind place (OfObject NewCluster)))) out.old
        out.new) }
{
    put(spot_op(spot), line, out)?;
    put(Op::Cluster, line, out)?;
    put(Op::Bind, line, out)?;
    Ok(())
}

// The cluster of a processor: the first argument, or the first cluster of the program.
fn lower_cluster(
    args: &[Expr],
    line: u32,
    names: &ProgramNames,
    out: &mut Draft,
) -> Result<(), AllocError>
    requires { length out.old.ops + OPS_FOR_SIZE * exprs_size (exprs_of args.now) + 1 ≤
        PROGRAM_OPS }
    ensures { OnOk result (Adds (OPS_FOR_SIZE * exprs_size (exprs_of args.now) + 1)
        (ExprCode line out.old.marks (cluster_in
        (args_meant (context_in names.now out.old) (exprs_of args.now)))) out.old out.new) }
{
    match args.first() {
        Some(arg) => {
            let _told = lower_expr(arg, line, names, out)?;
            Ok(())
        }
        None => {
            put(Op::Push(0), line, out)?;
            Ok(())
        }
    }
}

// A processor is asked for.
pub(crate) fn open_processor(
    spot: ObjectSpot,
    args: &[Expr],
    line: u32,
    names: &ProgramNames,
    out: &mut Draft,
) -> Result<(), AllocError>
    requires { length out.old.ops + OPS_FOR_SIZE * exprs_size (exprs_of args.now) + 4 ≤
        PROGRAM_OPS }
    ensures room { OnOk result (length out.new.ops ≤ length out.old.ops +
        (OPS_FOR_SIZE * exprs_size (exprs_of args.now) + 4)) }
    ensures code { OnOk result ((place : Place) → BeginsAt place spot → Adds
        (OPS_FOR_SIZE * exprs_size (exprs_of args.now) + 4)
        (ExprCode line out.old.marks (OfObject
        (Bind place (OfObject (NewProcessor
        (cluster_in (args_meant (context_in names.now out.old) (exprs_of args.now)))))))) out.old
        out.new) }
{
    put(spot_op(spot), line, out)?;
    lower_cluster(args, line, names, out)?;
    put(Op::Processor, line, out)?;
    put(Op::Bind, line, out)?;
    Ok(())
}
