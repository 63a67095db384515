use std::alloc::{AllocError, AllocFailed};

/// Why no statement was read.
#[derive(Clone, Copy, Debug, PartialEq, Eq)]
pub enum StatementFault {
    /// The tokens are no statement.
    BadStatement,
    /// Memory ran out.
    NoMemory,
}

impl From<AllocError> for StatementFault {
    ghost use Rattle.std.specs.Prelude.{◌≡◌};
    ghost use Rattle.statement_parse.specs.declared.fault.StatementFault.TheVariants.{NoMemory};

    ghost from_gives = { λ _ fault. fault ≡ NoMemory };

    fn from(_: AllocError) -> Self {
        StatementFault::NoMemory
    }
}

impl<T: Drop> From<AllocFailed<T>> for StatementFault {
    ghost use Rattle.std.specs.Prelude.{◌≡◌};
    ghost use Rattle.statement_parse.specs.declared.fault.StatementFault.TheVariants.{NoMemory};

    ghost from_gives = { λ _ fault. fault ≡ NoMemory };

    fn from(_: AllocFailed<T>) -> Self {
        StatementFault::NoMemory
    }
}

impl From<uts_lex::NoMemory> for StatementFault {
    ghost use Rattle.std.specs.Prelude.{◌≡◌};
    ghost use Rattle.statement_parse.specs.declared.fault.StatementFault.TheVariants.{NoMemory};

    ghost from_gives = { λ _ fault. fault ≡ NoMemory };

    fn from(_: uts_lex::NoMemory) -> Self {
        StatementFault::NoMemory
    }
}
