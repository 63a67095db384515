use std::alloc::{AllocError, AllocFailed};

/// Why no expression was read.
#[derive(Clone, Copy, Debug, PartialEq, Eq)]
pub enum ExprFault {
    /// The tokens are not one expression, or one beyond the limits.
    BadExpr,
    /// Memory ran out.
    NoMemory,
}

impl From<AllocError> for ExprFault {
    ghost use Rattle.std.specs.Prelude.{◌≡◌};
    ghost use Rattle.kernel_parse.specs.declared.fault.ExprFault.TheVariants.{NoMemory};

    ghost from_gives = { λ _ fault. fault ≡ NoMemory };

    fn from(_: AllocError) -> Self {
        ExprFault::NoMemory
    }
}

impl<T: Drop> From<AllocFailed<T>> for ExprFault {
    ghost use Rattle.std.specs.Prelude.{◌≡◌};
    ghost use Rattle.kernel_parse.specs.declared.fault.ExprFault.TheVariants.{NoMemory};

    ghost from_gives = { λ _ fault. fault ≡ NoMemory };

    fn from(_: AllocFailed<T>) -> Self {
        ExprFault::NoMemory
    }
}

impl From<uts_lex::NoMemory> for ExprFault {
    ghost use Rattle.std.specs.Prelude.{◌≡◌};
    ghost use Rattle.kernel_parse.specs.declared.fault.ExprFault.TheVariants.{NoMemory};

    ghost from_gives = { λ _ fault. fault ≡ NoMemory };

    fn from(_: uts_lex::NoMemory) -> Self {
        ExprFault::NoMemory
    }
}
