//! Where the conditions, the values and the effects of an action stand.
ghost use Rattle.std.specs.Prelude.{◌≡◌, ◌≤◌, length};
ghost use Rattle.ps_conditions.specs.declared.scopes.TheConstants.{MOST_IN_FORCE};
ghost use Rattle.ps_pddl.specs.declared.meaning.scope.TheConstants.{MOST_PARAMS};

use ps_domain::Declared;
use ps_world::Param;

/// The most parameters of an action, a predicate or a function.
pub const MOST_PARAMS: usize = 6;

/// An action in its domain: words mean its parameters and what the domain declares.
#[derive(Clone, Copy)]
pub struct ActionScope<'a> {
    pub domain: &'a Declared,
    pub params: &'a [Param],
    ghost few: { length params.now ≤ MOST_PARAMS },
}

/// A place in a condition: words mean the variables in force there and what the domain declares.
#[derive(Clone, Copy)]
pub struct InForce<'a> {
    pub domain: &'a Declared,
    pub params: &'a [Param],
    ghost few: { length params.now ≤ MOST_IN_FORCE },
}

/// An action's domain, and how many parameters it has.
#[derive(Clone, Copy)]
pub struct Binder<'a> {
    pub domain: &'a Declared,
    pub own: usize,
    ghost few: { own ≤ MOST_PARAMS },
}

impl<'a> ActionScope<'a> {
    /// Where quantifiers may bind.
    pub fn binder(&self) -> Binder<'a>
        ensures domain { result.domain.now ≡ self.now.domain.now }
        ensures own { result.own ≡ length self.now.params.now }
        ensures few { length self.now.params.now ≤ MOST_IN_FORCE }
    {
        Binder {
            domain: self.domain,
            own: self.params.len(),
        }
    }
}
