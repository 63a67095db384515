ghost use Rattle.std.specs.Prelude.{◌≡◌, ◌≤◌, IfOk};
ghost use Rattle.uts.specs.Answer.{refusal_line};
ghost use Rattle.uts.specs.Failures.{IsTold, IsReported, IsBuilt, line_of};

use crate::failure::Failure;
use crate::wording::words_of;
use std::alloc::Global;
use uts_io::{Sink, write_all};
use uts_num::{NoMemory, put_i64};

// The line of a refusal by these words, which stands on a line of the text.
fn refusal_text(alloc: Global, why: &str, line: u32) -> Result<Vec<u8>, NoMemory>
    ensures { IfOk result (λ text. text.items ≡ refusal_line why.now line) }
{
    let mut text = Vec::from_slice(alloc, b"refused: ")?;
    text.extend_from_slice(why.as_bytes())?;
    text.extend_from_slice(b", line ")?;
    put_i64(&mut text, i64::from(line))?;
    text.push(b'\n')?;
    Ok(text)
}

// Hands the line of a failure to standard error, and gives the status.
fn tell<E: Sink>(err: &mut E, failure: Failure, line: &[u8]) -> u8
    requires { line.now ≡ line_of failure }
    ensures told { IsTold failure E.after (E.taken err.old) (E.taken err.new) (E.faults err.old) (E.faults err.new) result }
    ensures never_falls { E.faults err.old ≤ E.faults err.new }
{
    match write_all(err, line) {
        Ok(()) => failure.status(),
        Err(_) => failure.status_after_fault(),
    }
}

fn tell_no_memory<E: Sink>(err: &mut E) -> u8
    ensures told { IsTold Failure.NoMemory E.after (E.taken err.old) (E.taken err.new) (E.faults err.old) (E.faults err.new) result }
    ensures never_falls { E.faults err.old ≤ E.faults err.new }
{
    tell(err, Failure::NoMemory, b"no memory\n")
}

// Tells a failure that is a refusal by these words, which stands on a line of the text.
fn tell_refusal<E: Sink>(alloc: Global, err: &mut E, failure: Failure, why: &str, line: u32) -> u8
    requires built { IsBuilt failure }
    requires told_so { refusal_line why.now line ≡ line_of failure }
    ensures told { IsReported failure E.after (E.taken err.old) (E.taken err.new) (E.faults err.old) (E.faults err.new) result }
    ensures never_falls { E.faults err.old ≤ E.faults err.new }
{
    match refusal_text(alloc, why, line) {
        Ok(text) => tell(err, failure, &text),
        Err(_) => tell_no_memory(err),
    }
}

/// Tells a failure on standard error, and gives the status of the program.
pub fn report<E: Sink>(alloc: Global, err: &mut E, failure: Failure) -> u8
    ensures told { IsReported failure E.after (E.taken err.old) (E.taken err.new) (E.faults err.old) (E.faults err.new) result }
    ensures never_falls { E.faults err.old ≤ E.faults err.new }
{
    match failure {
        Failure::TooLong => tell(err, failure, b"refused: too long\n"),
        Failure::BadText { line } => tell_refusal(alloc, err, failure, "bad text", line),
        Failure::Faulty(fault) => tell_refusal(
            alloc,
            err,
            failure,
            words_of(fault.kind),
            fault.line,
        ),
        Failure::Usage => tell(
            err,
            failure,
            b"usage: plain, check, graph, make N, run W, mill N W\n",
        ),
        Failure::ReadFault => tell(err, failure, b"read fault\n"),
        Failure::WriteFault => tell(err, failure, b"write fault\n"),
        Failure::NoMemory => tell_no_memory(err),
    }
}
