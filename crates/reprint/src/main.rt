//! Reads a problem text from standard input and writes it in its printed form: a trial of reading and printing.
#![tactic(auto)]

ghost use Rattle.std.specs.Prelude.{◌≡◌, ◌⊎◌, ◌<◌, ◌^◌, ℕ, length, IfOk, Err};
ghost use Rattle.problem_types.specs.declared.problem.Problem.{Problem};
ghost use Rattle.problem_file.specs.Grammar.{Spells, IsBadLine};
ghost use Rattle.problem_print.specs.Printed.{printed_text};

use problem_file::{ParseFault, parse};
use problem_print::print;
use std::alloc::Global;
use std::process::ExitCode;
use uts_io::{ReadAll, StdSink, StdSource, read_all, write_all};

/// The most bytes of a problem text.
const MOST_BYTES: usize = 1_048_576;

/// The printed form of the problem that a text spells.
fn printed(alloc: Global, text: &[u8]) -> Result<Vec<u8>, ParseFault>
    requires { length text.now < 2 ^ 31 }
    ensures printed { IfOk result (λ bytes. (p : Problem) × Spells text.now p × Spells bytes.items p × (bytes.items ≡ printed_text p)) }
    ensures bad_text { (line : ℕ) → result ≡ Err (ParseFault.BadText line) → IsBadLine text.now line }
    ensures bad_text_only { (line : ℕ) → IsBadLine text.now line
        → (result ≡ Err (ParseFault.BadText line)) ⊎ (result ≡ Err ParseFault.NoMemory) }
{
    let problem = parse(alloc, text)?;
    Ok(print(alloc, &problem)?)
}

/// The status is 0, 1 where the text spells no problem or is too long, 3 where standard input failed, 4 where
/// standard output failed, and 5 where memory ran out.
fn main(rt: HostRuntime) -> ExitCode {
    let mut source = StdSource::new(rt.stdin());
    let mut out = StdSink::new(rt.stdout());
    let text = match read_all(rt.alloc(), &mut source, MOST_BYTES) {
        Ok(text) => text,
        Err(ReadAll::TooLong) => return ExitCode::from(1),
        Err(ReadAll::Failed) => return ExitCode::from(3),
        Err(ReadAll::NoMemory) => return ExitCode::from(5),
    };
    let bytes = match printed(rt.alloc(), &text) {
        Ok(bytes) => bytes,
        Err(ParseFault::BadText { .. }) => return ExitCode::from(1),
        Err(ParseFault::NoMemory) => return ExitCode::from(5),
    };
    match write_all(&mut out, &bytes) {
        Ok(()) => ExitCode::SUCCESS,
        Err(_) => ExitCode::from(4),
    }
}
