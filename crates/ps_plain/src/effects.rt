//! Conditions and effects over plain knowledge. `ps_eval` has the fast ones.
ghost use Rattle.std.specs.Prelude.{◌≡◌, IfOk};
ghost use Rattle.ps_world.specs.CondViews.{cond_tree};
ghost use Rattle.ps_world.specs.declared.domains.Domain.{Domain as DomainView};
ghost use Rattle.ps_action.specs.Effects.{Applies, made};
ghost use Rattle.ps_action.specs.Truth.{is_true};
ghost use Rattle.ps_plain.specs.NoTypes.{HasNoType};

use super::effect_lists::{facts_added, facts_kept, values_with};
use ps_action::{EffectRefusal, Types, fault_of_flat, is_true, unfold, values_of_flat};
use ps_world::{Cond, Domain, Duplicate, Effect, Fact, Failure, Knowledge, Name, Num, Seq, Spread};
use std::alloc::{AllocError, Global};

/// The types of a domain that declares nothing, where each type stands below itself alone.
struct NoTypes;

impl Types for NoTypes {
    ghost use Rattle.ps_plain.specs.NoTypes.{no_domain};

    ghost types = { λ t. no_domain };

    fn is_type(&self, name: Name) -> bool {
        name == Name::OBJECT
    }

    fn is_subtype(&self, low: Name, high: Name) -> bool {
        low == high
    }
}

/// Whether a condition holds that doesn't say of an instance that it has a type, and has no quantifier. A variable counts as `object`. It
/// takes no memory.
pub fn holds_plain(known: &Knowledge, cond: &Cond) -> bool
    requires { HasNoType (cond_tree cond.now) }
    ensures { (d : DomainView) → result ≡ is_true d known.now (cond_tree cond.now) }
{
    is_true(known, &NoTypes, cond)
}

/// The knowledge after the effects for which a list stands, all of which read what is known before: deletes are made first, then adds,
/// then new values.
///
/// It is refused at the first of these effects, in their order, that has a fault; the faults of one effect come in this order:
/// `Clash` where an earlier effect gives the same term a value, `Undefined`, `Range`.
pub fn apply_plain(
    alloc: Global,
    domain: &Domain,
    known: &Knowledge,
    effects: &[Spread],
) -> Result<Knowledge, Failure<EffectRefusal>>
    ensures { Applies domain.now known.now effects.now result }
{
    let flat = unfold(alloc, known, domain, effects)?;
    if let Some(fault) = fault_of_flat(known, &flat) {
        return Err(Failure::Refused(fault));
    }
    let ready = values_of_flat(alloc, known, &flat)?;
    Ok(make(alloc, known, &flat, &ready)?)
}

/// What is known, copied, with the deletes of flat effects made, then their adds, then these values put in.
fn make(
    alloc: Global,
    known: &Knowledge,
    effects: &[Effect],
    ready: &[(Fact, Num)],
) -> Result<Knowledge, AllocError>
    ensures { IfOk result (λ new. new ≡ made known.now effects.now ready.now) }
{
    let kept = facts_kept(alloc, known.facts.as_slice(), effects)?;
    let facts = facts_added(alloc, kept, effects)?;
    let values = values_with(alloc, known.values.as_slice(), ready)?;
    let mut new = known.copy(alloc)?;
    new.facts = Seq::of(facts);
    new.values = Seq::of(values);
    Ok(new)
}
