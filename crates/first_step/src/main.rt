//! Reads a problem text from standard input, runs the first step by its detailed tasks on one thread, and writes how many there were:
//! a trial of detailed tasks.
#![tactic(auto)]

ghost use Rattle.std.specs.Prelude.{◌≡◌, ◌<◌, ◌^◌, length, IfOk};
ghost use Rattle.task_check.specs.Plan.{details_of};

use graph_compiler::{compile, kind_of, plans_are_valid};
use problem_file::{ParseFault, parse};
use run_task::StepJob;
use serial_step::run_serially;
use std::alloc::Global;
use std::process::ExitCode;
use task_check::{Checked, Refusal, check};
use uts_io::{ReadAll, StdSink, StdSource, read_all, write_all};
use uts_num::put_i64;

/// The most bytes of a problem text.
const MOST_BYTES: usize = 1_048_576;

/// Why nothing ran.
#[derive(Clone, Copy, Debug, PartialEq, Eq)]
enum Stop {
    /// The text is refused, or its first step wants what a step before it left.
    Refused,
    NoMemory,
}

/// The checked problem of a text.
fn problem(alloc: Global, text: &[u8]) -> Result<Checked, Stop>
    requires { length text.now < 2 ^ 31 }
{
    let problem = match parse(alloc, text) {
        Ok(problem) => problem,
        Err(ParseFault::BadText { .. }) => return Err(Stop::Refused),
        Err(ParseFault::NoMemory) => return Err(Stop::NoMemory),
    };
    match check(problem) {
        Ok(checked) => Ok(checked),
        Err(Refusal::Fault(_)) => Err(Stop::Refused),
        Err(Refusal::NoMemory) => Err(Stop::NoMemory),
    }
}

/// How many detailed tasks the first step has, each of which ran.
fn run_first(alloc: Global, c: &Checked) -> Result<u32, Stop>
    ensures { IfOk result (λ tasks. tasks ≡ length (details_of c.now c.now.init)) }
{
    plans_are_valid();
    let _problem = c.problem();
    let Ok(plan) = compile(alloc, c, kind_of(c, 0)) else {
        return Err(Stop::NoMemory);
    };
    if plan.graph.old > 0 {
        return Err(Stop::Refused);
    }
    let Ok(job) = StepJob::make(alloc, c, &plan, 0) else {
        return Err(Stop::NoMemory);
    };
    match run_serially(alloc, &plan.graph, &job, Vec::new(alloc)) {
        Ok(_values) => Ok(plan.graph.tasks),
        Err(_) => Err(Stop::NoMemory),
    }
}

/// The line that is written for a text.
fn line(alloc: Global, text: &[u8]) -> Result<Vec<u8>, Stop>
    requires { length text.now < 2 ^ 31 }
{
    let checked = problem(alloc, text)?;
    let tasks = run_first(alloc, &checked)?;
    let mut line = Vec::new(alloc);
    match put_i64(&mut line, i64::from(tasks)) {
        Ok(()) => {}
        Err(_) => return Err(Stop::NoMemory),
    }
    match line.push(b'\n') {
        Ok(()) => Ok(line),
        Err(_) => Err(Stop::NoMemory),
    }
}

/// The status is 0, 1 where the text is refused or too long, 3 where standard input failed, 4 where standard output failed, and 5 where
/// memory ran out.
fn main(rt: HostRuntime) -> ExitCode {
    let mut source = StdSource::new(rt.stdin());
    let mut out = StdSink::new(rt.stdout());
    let text = match read_all(rt.alloc(), &mut source, MOST_BYTES) {
        Ok(text) => text,
        Err(ReadAll::TooLong) => return ExitCode::from(1),
        Err(ReadAll::Failed) => return ExitCode::from(3),
        Err(ReadAll::NoMemory) => return ExitCode::from(5),
    };
    let bytes = match line(rt.alloc(), &text) {
        Ok(bytes) => bytes,
        Err(Stop::Refused) => return ExitCode::from(1),
        Err(Stop::NoMemory) => return ExitCode::from(5),
    };
    match write_all(&mut out, &bytes) {
        Ok(()) => ExitCode::SUCCESS,
        Err(_) => ExitCode::from(4),
    }
}
