//! Numbers of three decimals.
ghost use Rattle.std.specs.Prelude.{◌≡◌};
ghost use Rattle.std.specs.Option.{SomeIff};
ghost use Rattle.ps_world.specs.Numbers.{IsCount};

use super::lists::Duplicate;
use std::alloc::{AllocError, Global};
use std::marker::Model;

/// The greatest absolute value of a number, in thousandths.
pub const MOST_THOUSANDTHS: u64 = 1_000_000_000_000_000;

/// A number of three decimals, which contracts see as its count of thousandths. The absolute value of the count is at most 10^15.
#[derive(Clone, Copy, PartialEq, Eq, PartialOrd, Ord, Debug)]
pub struct Num {
    milli: i64,
}

impl Model for Num {
    ghost use Rattle.std.specs.Prelude.{ℤ};
    ghost use Rattle.ps_world.specs.Numbers.{IsCount};

    ghost Value = { ℤ };

    ghost view = { λ n. n.milli };

    ghost invariant = { λ n. IsCount n.milli };

    ghost inverse = { λ z. record { milli = z } };
}

impl Num {
    /// Zero.
    pub const ZERO: Num = Num { milli: 0 };

    /// The number of this count of thousandths, or None exactly where the absolute value passes 10^15.
    pub fn new(milli: i64) -> Option<Num>
        ensures { SomeIff result (IsCount milli) milli }
    {
        if milli.unsigned_abs() > MOST_THOUSANDTHS {
            None
        } else {
            Some(Num { milli })
        }
    }

    /// The count of thousandths.
    pub fn milli(self) -> i64
        ensures count { result ≡ self }
        ensures range { IsCount result }
    {
        self.milli
    }
}

impl Duplicate for Num {
    fn copy(&self, _alloc: Global) -> Result<Self, AllocError> {
        Ok(*self)
    }
}
