ghost use Rattle.std.specs.Prelude.{◌≡◌};

use plain_engine::RunFault;
use problem_file::ParseFault;
use task_check::{Fault, Refusal};
use uts_io::ReadAll;

/// Why the program did not do what its words ask.
#[derive(Clone, Copy, Debug, PartialEq, Eq)]
pub enum Failure {
    /// The words are no command.
    Usage,
    /// The text is longer than a problem may be.
    TooLong,
    /// The text spells no problem. This is its first bad line, counted from 1.
    BadText { line: u32 },
    /// The text spells a problem with faults. This is the first one.
    Faulty(Fault),
    /// The source failed.
    ReadFault,
    /// Standard output failed.
    WriteFault,
    /// Memory ran out.
    NoMemory,
}

impl From<RunFault> for Failure {
    ghost use Rattle.uts.specs.Failures.{of_run};

    ghost from_gives = { λ fault f. f ≡ of_run fault };

    fn from(fault: RunFault) -> Self {
        match fault {
            RunFault::SinkFault => Failure::WriteFault,
            RunFault::NoMemory => Failure::NoMemory,
        }
    }
}

impl From<ReadAll> for Failure {
    ghost use Rattle.uts.specs.Failures.{of_read};

    ghost from_gives = { λ fault f. f ≡ of_read fault };

    fn from(fault: ReadAll) -> Self {
        match fault {
            ReadAll::Failed => Failure::ReadFault,
            ReadAll::TooLong => Failure::TooLong,
            ReadAll::NoMemory => Failure::NoMemory,
        }
    }
}

impl From<ParseFault> for Failure {
    ghost use Rattle.uts.specs.Failures.{of_parse};

    ghost from_gives = { λ fault f. f ≡ of_parse fault };

    fn from(fault: ParseFault) -> Self {
        match fault {
            ParseFault::BadText { line } => Failure::BadText { line },
            ParseFault::NoMemory => Failure::NoMemory,
        }
    }
}

impl From<Refusal> for Failure {
    ghost use Rattle.uts.specs.Failures.{of_check};

    ghost from_gives = { λ refusal f. f ≡ of_check refusal };

    fn from(refusal: Refusal) -> Self {
        match refusal {
            Refusal::Fault(fault) => Failure::Faulty(fault),
            Refusal::NoMemory => Failure::NoMemory,
        }
    }
}

impl Failure {
    ghost use Rattle.uts.specs.Failures.{status_of, status_after_fault};

    /// The status of the program.
    pub fn status(self) -> u8
        ensures { result ≡ status_of self }
    {
        match self {
            Failure::TooLong | Failure::BadText { .. } | Failure::Faulty(_) => 1,
            Failure::Usage => 2,
            Failure::ReadFault => 3,
            Failure::WriteFault => 4,
            Failure::NoMemory => 5,
        }
    }

    /// The status where standard error failed too: a refusal that could not be told is a fault of writing.
    pub fn status_after_fault(self) -> u8
        ensures { result ≡ status_after_fault self }
    {
        match self {
            Failure::TooLong | Failure::BadText { .. } | Failure::Faulty(_) | Failure::Usage => 4,
            _ => self.status(),
        }
    }
}
