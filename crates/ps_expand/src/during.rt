//! What is known after a list of effects, which isn't made.
ghost use Rattle.std.specs.Prelude.{◌≡◌};
ghost use Rattle.std.specs.List.{list_any};
ghost use Rattle.ps_action.specs.Effects.{added_by, deletes};
ghost use Rattle.ps_expand.specs.Joining.{adds, value_after};

use ps_action::Known;
use ps_problem::Problem;
use ps_world::{Effect, Fact, Name, Num};

/// What is known after the effects of a list are made and these values are put in.
#[derive(Drop)]
pub struct During<'a> {
    pub before: &'a Problem,
    pub effects: &'a [Effect],
    pub ready: &'a [(Fact, Num)],
}

/// Whether an effect deletes this fact.
fn deletes(fact: &Fact, effect: &Effect) -> bool
    ensures { result ≡ deletes fact.now effect.now }
{
    match effect {
        Effect::Delete(lifted) => fact.cmp(&lifted.ground()).is_eq(),
        _ => false,
    }
}

/// Whether one of these effects deletes it.
pub fn are_deleting(effects: &[Effect], fact: &Fact) -> bool
    ensures { result ≡ list_any (deletes fact.now) effects.now }
{
    effects.iter().any(|effect| deletes(fact, effect))
}

/// The fact that an effect adds, if it adds one.
pub fn added_by(effect: &Effect) -> Option<Fact>
    ensures { result ≡ added_by effect.now }
{
    match effect {
        Effect::Add(lifted) => Some(lifted.ground()),
        _ => None,
    }
}

/// Whether an effect adds this fact.
fn adds(fact: &Fact, effect: &Effect) -> bool
    ensures { result ≡ adds fact.now effect.now }
{
    match effect {
        Effect::Add(lifted) => fact.cmp(&lifted.ground()).is_eq(),
        _ => false,
    }
}

/// Whether one of these effects adds it.
fn are_adding(effects: &[Effect], fact: &Fact) -> bool
    ensures { result ≡ list_any (adds fact.now) effects.now }
{
    effects.iter().any(|effect| adds(fact, effect))
}

/// The value of a term that had this one before, or none, after these values are put in.
fn value_after(before: Option<Num>, ready: &[(Fact, Num)], term: &Fact) -> Option<Num>
    ensures { result ≡ value_after before ready.now term.now }
{
    let mut value = before;
    for (there, number) in ready {
        if term.cmp(there).is_eq() {
            value = Some(*number);
        }
    }
    value
}

impl<'a> Known for During<'a> {
    ghost use Rattle.ps_action.specs.Effects.{made};

    ghost known = { λ w. made w.before.now w.effects.now w.ready.now };

    fn has(&self, fact: &Fact) -> bool {
        are_adding(self.effects, fact)
            || (self.before.has(fact) && !are_deleting(self.effects, fact))
    }

    fn value(&self, term: &Fact) -> Option<Num> {
        value_after(self.before.value(term), self.ready, term)
    }

    fn kind_of(&self, name: Name) -> Option<Name> {
        self.before.kind_of(name)
    }

    fn instances(&self) -> &[(Name, Name)] {
        Known::instances(self.before)
    }
}
