//! Files and sinks in memory.
ghost use Rattle.std.specs.Prelude.{◌≡◌};
ghost use Rattle.ps_text.specs.Outside.{next};

mod failing;
mod sure;
mod texts;

pub use failing::{MemFiles, MemSink};
pub use sure::{SureFiles, SureSink};

/// A count after one more. It stands still at its end.
pub fn risen(count: u64) -> u64
    ensures { result ≡ next count }
{
    count.saturating_add(1)
}
