//! The dump of a small problem, written by hand.
ghost use Rattle.std.specs.Prelude.{◌≡◌, ◌∷◌, ◌++◌, [], ◌≤◌, pos, negsuc, Some, IsTrue, OnOk};
ghost use Rattle.problem_types.specs.Lists.{is_dumped};

use crate::drafts::{Draft, FIRST, LOW, U, new_draft};
use crate::marks::Marks;
use dump_text::{NoMemory, Rows, RunFault, dump_begin, dump_end, dump_step};
use probes::Probe;
use problem_lookup::is_dumped;
use problem_types::{Centring, Expr, Fold, NoMemory as NoProblem};
use std::alloc::Global;
use std::test::Fail;
use task_check::Checked;
use uts_io::MemSink;

/// A task that computes the variable on both levels, and reduces.
fn write_both(d: &mut Draft) -> Result<(), NoProblem> {
    d.task(FIRST, &[0, 1], &[0])?;
    d.compute(U, Expr::Literal(1))?;
    d.reduce(LOW, Expr::Literal(2))
}

/// A level of two by two cells, and above its upper half a finer level of four by two by two. A variable on the faces along y, and a
/// reduction, are kept the other way round.
fn shown_by_hand(d: &mut Draft) -> Result<(), NoProblem> {
    d.level(1, [0, 0, 0], 1, [2, 2, 1])?;
    d.level(2, [0, 2, 0], 2, [4, 4, 2])?;
    d.variable(U, Centring::FaceY, 0)?;
    d.reduction(LOW, Fold::Max)?;
    d.init();
    write_both(d)?;
    d.timestep();
    write_both(d)?;
    d.keep(LOW)?;
    d.keep(U)
}

fn push(out: &mut Vec<i64>, number: i64) -> Result<(), NoMemory>
    ensures { OnOk result (out.new.items ≡ out.old.items ++ number ∷ []) }
{
    out.push(number).map_err(|_| NoMemory)
}

/// A supplier that has for each row its level, y and z, and for each reduction -7.
#[derive(Drop)]
struct Places;

impl Rows for Places {
    ghost rows = { λ _ name material level y z. Some (pos level ∷ y ∷ z ∷ []) };

    ghost numbers = { λ _ name. Some (negsuc 6) };

    fn row(
        &mut self,
        _name: u32,
        _material: u32,
        level: u32,
        y: i64,
        z: i64,
        out: &mut Vec<i64>,
    ) -> Result<(), NoMemory> {
        out.clear();
        push(out, i64::from(level))?;
        push(out, y)?;
        push(out, z)?;
        Ok(())
    }

    fn number(&self, _name: u32) -> i64 {
        -7
    }
}

/// Adds a probe that has memory for so many rows.
fn watch(alloc: Global, probes: &mut Vec<Box<dyn Probe>>, most: u8) -> Result<(), Fail> {
    probes.push(Box::new(alloc, Marks { rows: 0, most })?)?;
    Ok(())
}

/// Whether the dump shows a step of the run.
fn is_shown(c: &Checked, step: u32) -> bool
    ensures dumped { IsTrue result → IsTrue (is_dumped c.now step) }
    ensures within { IsTrue result → step ≤ c.now.steps.value }
{
    let p = c.problem();
    u64::from(step) <= p.steps.value && is_dumped(p, step)
}

/// The part of a step, if the dump shows it.
fn put_step(
    alloc: Global,
    c: &Checked,
    step: u32,
    sink: &mut MemSink,
    probes: &mut Vec<Box<dyn Probe>>,
) -> Result<(), RunFault> {
    if is_shown(c, step) {
        dump_step(alloc, sink, c, step, &mut Places, probes)
    } else {
        Ok(())
    }
}

/// The dump, from its first line to its end.
fn put_dump(
    alloc: Global,
    c: &Checked,
    sink: &mut MemSink,
    probes: &mut Vec<Box<dyn Probe>>,
) -> Result<(), RunFault> {
    dump_begin(sink)?;
    put_step(alloc, c, 0, sink, probes)?;
    put_step(alloc, c, 1, sink, probes)?;
    dump_end(alloc, sink, probes)
}

/// How a dump ended, and what the sink took of it.
#[derive(Drop)]
struct Written {
    outcome: Result<(), RunFault>,
    sink: MemSink,
}

/// The dump into a sink of so much room, past two probes of which the second has memory for so many rows.
fn dump_of(alloc: Global, room: u16, most: u8) -> Result<Written, Fail> {
    let mut d = new_draft(alloc, 1, 1, 1);
    shown_by_hand(&mut d)?;
    let c = d.checked()?;
    let mut probes = Vec::new(alloc);
    watch(alloc, &mut probes, 200)?;
    watch(alloc, &mut probes, most)?;
    let mut sink = MemSink::new(alloc, usize::from(room), Vec::new(alloc))?;
    let outcome = put_dump(alloc, &c, &mut sink, &mut probes);
    Ok(Written { outcome, sink })
}

#[test]
fn a_dump_from_its_first_line_to_its_end(rt: HostRuntime) -> Result<(), Fail> {
    let written = dump_of(rt.alloc(), 1000, 200)?;
    assert_eq!(rt; written.outcome, Ok(()));
    assert_eq!(rt;
        written.sink.bytes(),
        b"dump 1
step 0
number l -7
field u 0 0 0 0 0 2 3 1
0 0 0
0 1 0
0 2 0
field u 0 1 0 2 0 4 5 2
1 2 0
1 3 0
1 4 0
1 2 1
1 3 1
1 4 1
step 1
number l -7
field u 0 0 0 0 0 2 3 1
0 0 0
0 1 0
0 2 0
field u 0 1 0 2 0 4 5 2
1 2 0
1 3 0
1 4 0
1 2 1
1 3 1
1 4 1
# ##################
# ##################
end
"
            .as_slice()
    );
    Ok(())
}

#[test]
fn a_sink_that_fails_in_a_row(rt: HostRuntime) -> Result<(), Fail> {
    let written = dump_of(rt.alloc(), 59, 200)?;
    assert_eq!(rt; written.outcome, Err(RunFault::SinkFault));
    assert_eq!(rt;
        written.sink.bytes(),
        b"dump 1\nstep 0\nnumber l -7\nfield u 0 0 0 0 0 2 3 1\n0 0 0\n0 1".as_slice()
    );
    Ok(())
}

#[test]
fn a_probe_that_has_no_memory_for_a_row(rt: HostRuntime) -> Result<(), Fail> {
    let written = dump_of(rt.alloc(), 1000, 2)?;
    assert_eq!(rt; written.outcome, Err(RunFault::NoMemory));
    assert_eq!(rt;
        written.sink.bytes(),
        b"dump 1\nstep 0\nnumber l -7\nfield u 0 0 0 0 0 2 3 1\n0 0 0\n0 1 0\n0 2 0\n".as_slice()
    );
    Ok(())
}
