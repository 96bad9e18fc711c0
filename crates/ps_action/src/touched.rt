//! What conditions read and what effects and edits change.
ghost use Rattle.std.specs.Prelude.{◌≡◌};
ghost use Rattle.ps_action.specs.Arcs.{is_thing, meets};
ghost use Rattle.ps_action.specs.Touching.{fact_of, named_by, value_at};

use super::places::{Place, has_var};
use ps_world::{Fact as GroundFact, Lifted, Name, Term};

/// What can change: one thing, or all that stands at a place.
#[derive(Clone, Copy, PartialEq, Eq, PartialOrd, Ord)]
pub enum Touched {
    /// Whether the fact is known.
    Fact(GroundFact),
    /// The value of the function term.
    Value(GroundFact),
    /// Whether the name is an instance, and of which type.
    Instance(Name),
    /// Which facts at a place are known.
    Facts(Place),
    /// The values of the function terms at a place.
    Values(Place),
    /// Which names are instances, and of which types.
    Instances,
}

impl Touched {
    /// The fact that a head with terms is, or its place where a variable stands in it. It takes no memory.
    pub fn fact_of(lifted: &Lifted) -> Touched
        ensures { result ≡ fact_of lifted.now }
    {
        if has_var(lifted) {
            return Touched::Facts(Place::of(lifted));
        }
        Touched::Fact(lifted.ground())
    }

    /// The function term that a head with terms is, or its place where a variable stands in it. It takes no memory.
    pub fn value_at(lifted: &Lifted) -> Touched
        ensures { result ≡ value_at lifted.now }
    {
        if has_var(lifted) {
            return Touched::Values(Place::of(lifted));
        }
        Touched::Value(lifted.ground())
    }

    /// The instance that a term names, or all instances where it is a variable.
    pub fn named_by(term: &Term) -> Touched
        ensures { result ≡ named_by term.now }
    {
        match term {
            Term::Var(_) => Touched::Instances,
            Term::Const(name) => Touched::Instance(*name),
        }
    }

    /// Whether it is a fact or a function term, or a place of such.
    pub fn is_thing(&self) -> bool
        ensures { result ≡ is_thing self.now }
    {
        match self {
            Touched::Fact(_) | Touched::Value(_) | Touched::Facts(_) | Touched::Values(_) => true,
            Touched::Instance(_) | Touched::Instances => false,
        }
    }

    /// Whether two of these meet: they are the same, or a place of one is open where the other has an argument. It takes no memory.
    pub fn meets(&self, other: &Touched) -> bool
        ensures { result ≡ meets self.now other.now }
    {
        match (self, other) {
            (Touched::Fact(f), Touched::Fact(g)) => f.cmp(g).is_eq(),
            (Touched::Fact(f), Touched::Facts(q)) => q.has(f),
            (Touched::Facts(p), Touched::Fact(g)) => p.has(g),
            (Touched::Facts(p), Touched::Facts(q)) => p.meets(q),
            (Touched::Value(f), Touched::Value(g)) => f.cmp(g).is_eq(),
            (Touched::Value(f), Touched::Values(q)) => q.has(f),
            (Touched::Values(p), Touched::Value(g)) => p.has(g),
            (Touched::Values(p), Touched::Values(q)) => p.meets(q),
            (Touched::Instance(m), Touched::Instance(n)) => m == n,
            (Touched::Instance(_), Touched::Instances) => true,
            (Touched::Instances, Touched::Instance(_)) => true,
            (Touched::Instances, Touched::Instances) => true,
            _ => false,
        }
    }
}
