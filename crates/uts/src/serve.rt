ghost use Rattle.std.specs.Prelude.{◌≡◌, ◌≤◌, ◌^◌, IfSome, IfOk, IfErr, OnOk, IsErrOf, Some, length};
ghost use Rattle.uts_io.specs.Streams.{Rose, grown, GrewByPrefix, IsAtEnd};
ghost use Rattle.problem_types.specs.declared.problem.Problem.{Problem};
ghost use Rattle.problem_file.specs.Grammar.{Spells};
ghost use Rattle.task_check.specs.First.{IsAccepted};
ghost use Rattle.uts.specs.Answer.{IsRefused};
ghost use Rattle.uts.specs.Commands.{bytes_of};
ghost use Rattle.uts.specs.Failures.{IsReason, IsEarly};

use crate::command::Command;
use crate::failure::Failure;
use crate::listing::write_listing;
use plain_engine::{RunFault, run_plain};
use problem_file::{no_problem_with_a_bad_line, one_problem, parse};
use std::alloc::Global;
use task_check::{Checked, accepted_problems_have_none, check};
use uts_io::{Sink, Source, read_all, write_all};

/// The most bytes of a problem text.
const MOST_BYTES: usize = 1_048_576;

/// The problem that a text spells, where it has no fault.
fn problem_of(alloc: Global, text: &[u8]) -> Result<Checked, Failure>
    requires { length text.now ≤ 2 ^ 20 }
    ensures spelled { IfOk result (λ p. Spells text.now p) }
    ensures accepted { IfOk result IsAccepted }
    ensures reason { IfErr result (IsReason (Some text.now) ⊥ ⊥) }
{
    let problem = parse(alloc, text)?;
    let checked = check(problem)?;
    Ok(checked)
}

/// Reads the source to its end, and what problem its text spells.
fn read_problem<R: Source>(alloc: Global, source: &mut R) -> Result<Checked, Failure>
    ensures ended { OnOk result (IsAtEnd (R.left source.new)) }
    ensures spelled { IfOk result (λ p. IfSome (R.left source.old) (λ text. (length text ≤ 2 ^ 20) × Spells text p)) }
    ensures accepted { IfOk result IsAccepted }
    ensures calm { OnOk result (R.faults source.new ≡ R.faults source.old) }
    ensures reason { IfErr result (IsReason (R.left source.old) (Rose (R.faults source.old) (R.faults source.new)) ⊥) }
    ensures never_falls { R.faults source.old ≤ R.faults source.new }
{
    let text = read_all(alloc, source, MOST_BYTES)?;
    problem_of(alloc, &text)
}

/// Writes what the command gives for a problem without faults.
fn write_answer<O: Sink>(
    alloc: Global,
    command: Command,
    checked: &Checked,
    out: &mut O,
) -> Result<(), RunFault>
    ensures all { OnOk result (O.taken out.new ≡ grown O.after (O.taken out.old) (bytes_of command checked.now)) }
    ensures prefix { GrewByPrefix O.after (O.taken out.old) (O.taken out.new) (bytes_of command checked.now) }
    ensures calm { OnOk result (O.faults out.new ≡ O.faults out.old) }
    ensures fault { IsErrOf result RunFault.SinkFault → Rose (O.faults out.old) (O.faults out.new) }
    ensures never_falls { O.faults out.old ≤ O.faults out.new }
{
    match command {
        Command::Plain => run_plain(alloc, checked, out),
        Command::Check => Ok(write_all(out, b"accepted\n")?),
        Command::Graph => write_listing(alloc, checked, out),
    }
}

/// Does what the command asks with the source's problem.
pub fn serve<R: Source, O: Sink>(
    alloc: Global,
    command: Command,
    source: &mut R,
    out: &mut O,
) -> Result<(), Failure>
    ensures ended { OnOk result (IsAtEnd (R.left source.new)) }
    ensures done { OnOk result (IfSome (R.left source.old) (λ text. (length text ≤ 2 ^ 20) × ((p : Problem) × Spells text p
        × IsAccepted p × (O.taken out.new ≡ grown O.after (O.taken out.old) (bytes_of command p))))) }
    ensures calm { OnOk result ((R.faults source.new ≡ R.faults source.old) × (O.faults out.new ≡ O.faults out.old)) }
    ensures reason { IfErr result (IsReason (R.left source.old) (Rose (R.faults source.old) (R.faults source.new))
        (Rose (O.faults out.old) (O.faults out.new))) }
    ensures unrefused { IsErrOf result Failure.WriteFault → IfSome (R.left source.old) (λ text. IsRefused text → ⊥) }
    ensures early { IfErr result (λ f. IsEarly f → O.taken out.new ≡ O.taken out.old) }
    ensures refused { IfSome (R.left source.old) (λ text. IsRefused text → O.taken out.new ≡ O.taken out.old) }
    ensures prefix { IfSome (R.left source.old) (λ text. (p : Problem) → Spells text p
        → GrewByPrefix O.after (O.taken out.old) (O.taken out.new) (bytes_of command p)) }
    ensures source_never_falls { R.faults source.old ≤ R.faults source.new }
    ensures out_never_falls { O.faults out.old ≤ O.faults out.new }
{
    one_problem();
    no_problem_with_a_bad_line();
    accepted_problems_have_none();
    let checked = read_problem(alloc, source)?;
    write_answer(alloc, command, &checked, out)?;
    Ok(())
}
