//! Why a call did nothing.
ghost use Rattle.std.specs.Prelude.{◌≡◌};
ghost use Rattle.ps_world.specs.declared.failures.Failure.TheVariants.{OutOfMemory};

use std::alloc::{AllocError, AllocFailed};

/// Why a call did nothing: it refused, or memory ran out. No refusal says that memory ran out, so none in an entry or a line can.
#[derive(Clone, Copy, PartialEq, Eq, Debug, Drop)]
pub enum Failure<R> {
    /// The call refuses what it was given.
    Refused(R),
    /// Memory ran out.
    OutOfMemory,
}

impl<R> From<AllocError> for Failure<R> {
    ghost from_gives = { λ _ f. f ≡ OutOfMemory };

    fn from(_error: AllocError) -> Failure<R> {
        Failure::OutOfMemory
    }
}

impl<R, T: Drop> From<AllocFailed<T>> for Failure<R> {
    ghost from_gives = { λ _ f. f ≡ OutOfMemory };

    fn from(_error: AllocFailed<T>) -> Failure<R> {
        Failure::OutOfMemory
    }
}
