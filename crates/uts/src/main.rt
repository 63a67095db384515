//! Runs simulation components given as task graphs: reads a problem, checks it, and writes its dump.
#![tactic(auto)]

mod command;
#[cfg(test)]
mod drafts_tests;
#[cfg(test)]
mod dumps_tests;
mod failure;
#[cfg(test)]
mod faults_tests;
mod laws;
#[cfg(test)]
mod limits_tests;
mod listing;
#[cfg(test)]
mod listing_tests;
#[cfg(test)]
mod refusals_tests;
mod report;
mod serve;
#[cfg(test)]
mod tests;
mod top;
mod wording;

use failure::Failure;
use report::report;
use std::alloc::AllocError;
use std::process::ExitCode;
use std::rt::Env;
use std::{env, io};
use top::quiet_top;
use uts_io::{StdSink, StdSource};

/// The words of the command line, without the program's name. Words that are not text are no command, as
/// no words are.
fn words(rt: &(impl Env + AllocGlobal)) -> Result<Vec<String>, AllocError> {
    match env::args(rt) {
        Ok(args) => args.skip(1).collect(rt.alloc()),
        Err(error) if error.kind() == io::ErrorKind::OutOfMemory => Err(AllocError),
        Err(_) => Ok(Vec::new(rt.alloc())),
    }
}

fn main(rt: HostRuntime) -> ExitCode {
    let mut out = StdSink::new(rt.stdout());
    let mut err = StdSink::new(rt.stderr());
    let status = match words(&rt) {
        Ok(words) => {
            let mut source = StdSource::new(rt.stdin());
            quiet_top(
                rt.alloc(),
                words.as_slice(),
                &mut source,
                &mut out,
                &mut err,
            )
        }
        Err(_) => report(rt.alloc(), &mut err, Failure::NoMemory),
    };
    ExitCode::from(status)
}
