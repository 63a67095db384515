ghost use Rattle.std.specs.Prelude.{◌≡◌};
ghost use Rattle.dump_text.specs.declared.fault.RunFault.TheVariants as fault;

use std::alloc::AllocError;

/// Why a run did not write its whole dump.
#[derive(Clone, Copy, Debug, PartialEq, Eq)]
pub enum RunFault {
    /// The sink failed.
    SinkFault,
    /// Memory ran out.
    NoMemory,
}

impl From<uts_io::SinkFault> for RunFault {
    ghost from_gives = { λ _ e. e ≡ fault.SinkFault };

    fn from(_: uts_io::SinkFault) -> Self {
        RunFault::SinkFault
    }
}

impl From<uts_num::NoMemory> for RunFault {
    ghost from_gives = { λ _ e. e ≡ fault.NoMemory };

    fn from(_: uts_num::NoMemory) -> Self {
        RunFault::NoMemory
    }
}

impl From<probes::NoMemory> for RunFault {
    ghost from_gives = { λ _ e. e ≡ fault.NoMemory };

    fn from(_: probes::NoMemory) -> Self {
        RunFault::NoMemory
    }
}

impl From<AllocError> for RunFault {
    ghost from_gives = { λ _ e. e ≡ fault.NoMemory };

    fn from(_: AllocError) -> Self {
        RunFault::NoMemory
    }
}
