//! Sinks, which take bytes.
ghost use Rattle.std.specs.Prelude.{◌≡◌};
ghost use Rattle.ps_text.specs.Outside.{Puts};
ghost use Rattle.ps_text.specs.declared.sinks.SinkRefusal.TheVariants.{OutOfMemory};

use std::alloc::{AllocError, AllocFailed};

/// Why a sink did not take bytes.
#[derive(Clone, Copy, PartialEq, Eq, Debug)]
pub enum SinkRefusal {
    /// Writing failed.
    Failed,
    /// Memory ran out.
    OutOfMemory,
}

impl From<AllocError> for SinkRefusal {
    ghost from_gives = { λ _ e. e ≡ OutOfMemory };

    fn from(_e: AllocError) -> SinkRefusal {
        SinkRefusal::OutOfMemory
    }
}

impl<T: Drop> From<AllocFailed<T>> for SinkRefusal {
    ghost from_gives = { λ _ e. e ≡ OutOfMemory };

    fn from(_e: AllocFailed<T>) -> SinkRefusal {
        SinkRefusal::OutOfMemory
    }
}

/// What takes bytes in order.
pub trait Sink {
    ghost use Rattle.ps_text.specs.Outside.{SinkView, Writes};

    /// What the sink took, and how its writes went.
    ghost shown: { Self → SinkView };

    /// Takes a prefix of the bytes, at least one if there is one, and answers how many. A refusal takes none.
    fn write(&mut self, bytes: &[u8]) -> Result<usize, SinkRefusal>
        ensures { Writes bytes.now (shown self.old) (shown self.new) result };
}

/// Writes all of the bytes, by as many writes as it takes. The refusal is that of the write that was refused, after a prefix of the bytes.
pub fn put<S: Sink>(sink: &mut S, bytes: &[u8]) -> Result<(), SinkRefusal>
    ensures { Puts bytes.now (S.shown sink.old) (S.shown sink.new) result }
{
    let mut rest = bytes;
    while !rest.is_empty() {
        match sink.write(rest) {
            Ok(count) => rest = &rest[count..],
            Err(refusal) => return Err(refusal),
        }
    }
    Ok(())
}
