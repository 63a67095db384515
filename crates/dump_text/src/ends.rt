//! The first line of a dump, and its end.
ghost use Rattle.std.specs.Prelude.{◌≡◌, ◌≤◌, map, OnOk, OnErr};
ghost use Rattle.std.specs.List.{flat_map};
ghost use Rattle.uts_io.specs.Streams.{Rose, grown, GrewByPrefix};
ghost use Rattle.uts_model.specs.Dump.{begin_text, end_text};
ghost use Rattle.dump_text.specs.Showing.{probe_line};
ghost use Rattle.dump_text.specs.Writing.{Writes};

use crate::fault::RunFault;
use crate::lines::{put_probe_line, write_line};
use probes::Probe;
use std::alloc::Global;
use uts_io::{Sink, SinkFault, write_all};

/// Writes the line that begins a dump. After an error the sink has taken a prefix of it.
#[tactic(auto, unfolding(uts_model::specs::Dump::begin_text))]
pub fn dump_begin<O: Sink>(sink: &mut O) -> Result<(), SinkFault>
    ensures all { OnOk result (O.taken sink.new ≡ grown O.after (O.taken sink.old) begin_text) }
    ensures calm { OnOk result (O.faults sink.new ≡ O.faults sink.old) }
    ensures failed { OnErr result (Rose (O.faults sink.old) (O.faults sink.new)) }
    ensures prefix { GrewByPrefix O.after (O.taken sink.old) (O.taken sink.new) begin_text }
    ensures never_falls { O.faults sink.old ≤ O.faults sink.new }
{
    write_all(sink, b"dump 1\n")
}

/// Hands the line of a probe to the sink.
fn write_probe_line<O: Sink>(
    alloc: Global,
    probe: &Box<dyn Probe>,
    line: &mut Vec<u8>,
    sink: &mut O,
) -> Result<(), RunFault>
    ensures { Writes O.after (O.taken sink.old) (O.taken sink.new) (O.faults sink.old) (O.faults sink.new) result
        (probe_line (text probe.now (state probe.now))) }
{
    let text = probe.line(alloc)?;
    put_probe_line(line, text.as_slice())?;
    write_line(sink, line)
}

/// Hands the lines of the probes to the sink, in order.
fn write_probe_lines<O: Sink>(
    alloc: Global,
    probes: &Vec<Box<dyn Probe>>,
    sink: &mut O,
) -> Result<(), RunFault>
    ensures { Writes O.after (O.taken sink.old) (O.taken sink.new) (O.faults sink.old) (O.faults sink.new) result
        (flat_map probe_line (map (λ b. text b (state b)) probes.now.items)) }
{
    let mut line = Vec::new(alloc);
    for probe in probes {
        write_probe_line(alloc, probe, &mut line, sink)?;
    }
    Ok(())
}

/// Writes the end of a dump: a line for each probe, in order, and the last line. After an error the sink has taken a prefix of
/// these bytes.
pub fn dump_end<O: Sink>(
    alloc: Global,
    sink: &mut O,
    probes: &Vec<Box<dyn Probe>>,
) -> Result<(), RunFault>
    ensures { Writes O.after (O.taken sink.old) (O.taken sink.new) (O.faults sink.old) (O.faults sink.new) result
        (end_text (map (λ b. text b (state b)) probes.now.items)) }
{
    write_probe_lines(alloc, probes, sink)?;
    write_line(sink, b"end\n")
}
