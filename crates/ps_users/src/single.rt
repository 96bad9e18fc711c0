//! Single facts, values and instances.
ghost use Rattle.std.specs.Prelude.{◌≡◌};
ghost use Rattle.ps_users.specs.Singles.{single_of, touched_of};

use ps_action::Touched;
use ps_world::{Fact as GroundFact, Name};

/// One fact, value or instance, by which its users are found at once.
#[derive(Clone, Copy, PartialEq, Eq, PartialOrd, Ord)]
pub enum Single {
    /// Whether the fact is known.
    Fact(GroundFact),
    /// The value of the function term.
    Value(GroundFact),
    /// Whether the name is an instance, and of which type.
    Instance(Name),
}

impl Single {
    /// What is touched, if it is one thing and no place.
    pub fn of(touched: &Touched) -> Option<Single>
        ensures { result ≡ single_of touched.now }
    {
        match touched {
            Touched::Fact(fact) => Some(Single::Fact(*fact)),
            Touched::Value(term) => Some(Single::Value(*term)),
            Touched::Instance(name) => Some(Single::Instance(*name)),
            Touched::Facts(_) | Touched::Values(_) | Touched::Instances => None,
        }
    }

    /// It as something that is touched.
    pub fn touched(&self) -> Touched
        ensures { result ≡ touched_of self.now }
    {
        match self {
            Single::Fact(fact) => Touched::Fact(*fact),
            Single::Value(term) => Touched::Value(*term),
            Single::Instance(name) => Touched::Instance(*name),
        }
    }
}
