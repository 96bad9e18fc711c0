//! The eight edits of what is known. `ps_problem` has the fast ones.
ghost use Rattle.std.specs.Prelude.{◌≡◌, IfOk};
ghost use Rattle.ps_world.specs.Knowledge.{goal_without, without};
ghost use Rattle.ps_world.specs.Edits.{EditGives};
ghost use Rattle.ps_world.specs.declared.edits.Edit.TheVariants.{AddInstance, RemoveInstance, AddFact, RemoveFact, SetValue, RemoveValue, SetGoal, RemoveGoal};

use super::lists::{
    facts_but, facts_not_naming, instances_but, values_but, values_not_naming, with_entry,
    with_fact, with_number,
};
use ps_action::{Known, cond_fault, fact_fault, value_fault};
use ps_world::{
    Cond, Domain, Duplicate, Edit, EditRefusal, Fact, Failure, Knowledge, MOST_INSTANCES, Name,
    Num, Seq,
};
use std::alloc::{AllocError, Global};

/// The knowledge after an edit, or the first refusal in the order of the rules of that edit:
///
/// - set instance: `NoType`, `InstanceThere` where it is there with another type, `Full` where it isn't there and 1,000 are;
/// - remove instance: `NoInstance`, `Constant`;
/// - set predicate: `NoPredicate`, `Arity`, and then for each argument `NoInstance`, `WrongType`; remove predicate: the
///   same, and then `NoFact`;
/// - set function: `NoFunction`, `Arity`, and then the arguments in the same way; remove function: the same, and then `NoValue`;
/// - set goal: in the order of its text, for each fact and function the same, and for each side of a `(= a b)` `NoInstance`;
///   remove goal: `NoGoal`.
///
/// Memory runs out only where nothing refuses the edit. It looks through whole lists: `Problem` of `ps_problem` has the
/// fast edit.
pub fn edit_plain(
    alloc: Global,
    domain: &Domain,
    known: &Knowledge,
    edit: &Edit,
) -> Result<Knowledge, Failure<EditRefusal>>
    ensures { EditGives domain.now known.now edit.now result }
{
    match edit {
        Edit::AddInstance(name, kind) => add_instance(alloc, domain, known, *name, *kind),
        Edit::RemoveInstance(name) => remove_instance(alloc, domain, known, *name),
        Edit::AddFact(fact) => add_fact(alloc, domain, known, *fact),
        Edit::RemoveFact(fact) => remove_fact(alloc, domain, known, *fact),
        Edit::SetValue(fact, number) => set_value(alloc, domain, known, *fact, *number),
        Edit::RemoveValue(fact) => remove_value(alloc, domain, known, *fact),
        Edit::SetGoal(goal) => set_goal(alloc, domain, known, goal.get()),
        Edit::RemoveGoal => remove_goal(alloc, domain, known),
    }
}

fn add_instance(
    alloc: Global,
    domain: &Domain,
    known: &Knowledge,
    name: Name,
    kind: Name,
) -> Result<Knowledge, Failure<EditRefusal>>
    ensures { EditGives domain.now known.now (AddInstance name kind) result }
{
    if !domain.is_type(kind) {
        return Err(Failure::Refused(EditRefusal::NoType));
    }
    match known.kind_of(name) {
        Some(there) if there == kind => Ok(known.copy(alloc)?),
        Some(_) => Err(Failure::Refused(EditRefusal::InstanceThere)),
        None if known.instances.len() >= MOST_INSTANCES => Err(Failure::Refused(EditRefusal::Full)),
        None => {
            let instances = with_entry(alloc, known.instances.as_slice(), name, kind)?;
            let mut new = known.copy(alloc)?;
            new.instances = Seq::of(instances);
            Ok(new)
        }
    }
}

fn remove_instance(
    alloc: Global,
    domain: &Domain,
    known: &Knowledge,
    name: Name,
) -> Result<Knowledge, Failure<EditRefusal>>
    ensures { EditGives domain.now known.now (RemoveInstance name) result }
{
    if known.kind_of(name).is_none() {
        return Err(Failure::Refused(EditRefusal::NoInstance(name)));
    }
    if domain.constant(name).is_some() {
        return Err(Failure::Refused(EditRefusal::Constant));
    }
    Ok(known_without(alloc, known, name)?)
}

/// The knowledge without an instance, and without every fact and value and the goal that name it.
fn known_without(alloc: Global, known: &Knowledge, name: Name) -> Result<Knowledge, AllocError>
    ensures { IfOk result (λ new. new ≡ without name known.now) }
{
    let instances = instances_but(alloc, known.instances.as_slice(), name)?;
    let facts = facts_not_naming(alloc, known.facts.as_slice(), name)?;
    let values = values_not_naming(alloc, known.values.as_slice(), name)?;
    let goal = goal_not_naming(alloc, &known.goal, name)?;
    Ok(Knowledge {
        instances: Seq::of(instances),
        facts: Seq::of(facts),
        values: Seq::of(values),
        goal,
    })
}

/// A copy of the goal, unless it names the instance.
fn goal_not_naming(
    alloc: Global,
    goal: &Option<Cond>,
    name: Name,
) -> Result<Option<Cond>, AllocError>
    ensures { IfOk result (λ kept. kept ≡ goal_without name goal.now) }
{
    match goal {
        None => Ok(None),
        Some(goal) => {
            if goal.names(name) {
                return Ok(None);
            }
            Ok(Some(goal.copy(alloc)?))
        }
    }
}

fn add_fact(
    alloc: Global,
    domain: &Domain,
    known: &Knowledge,
    fact: Fact,
) -> Result<Knowledge, Failure<EditRefusal>>
    ensures { EditGives domain.now known.now (AddFact fact) result }
{
    if let Some(fault) = fact_fault(known, domain, &fact) {
        return Err(Failure::Refused(fault));
    }
    let facts = with_fact(alloc, known.facts.as_slice(), fact)?;
    let mut new = known.copy(alloc)?;
    new.facts = Seq::of(facts);
    Ok(new)
}

fn remove_fact(
    alloc: Global,
    domain: &Domain,
    known: &Knowledge,
    fact: Fact,
) -> Result<Knowledge, Failure<EditRefusal>>
    ensures { EditGives domain.now known.now (RemoveFact fact) result }
{
    if let Some(fault) = fact_fault(known, domain, &fact) {
        return Err(Failure::Refused(fault));
    }
    if !known.has(&fact) {
        return Err(Failure::Refused(EditRefusal::NoFact));
    }
    let facts = facts_but(alloc, known.facts.as_slice(), fact)?;
    let mut new = known.copy(alloc)?;
    new.facts = Seq::of(facts);
    Ok(new)
}

fn set_value(
    alloc: Global,
    domain: &Domain,
    known: &Knowledge,
    fact: Fact,
    number: Num,
) -> Result<Knowledge, Failure<EditRefusal>>
    ensures { EditGives domain.now known.now (SetValue fact number) result }
{
    if let Some(fault) = value_fault(known, domain, &fact) {
        return Err(Failure::Refused(fault));
    }
    let values = with_number(alloc, known.values.as_slice(), fact, number)?;
    let mut new = known.copy(alloc)?;
    new.values = Seq::of(values);
    Ok(new)
}

fn remove_value(
    alloc: Global,
    domain: &Domain,
    known: &Knowledge,
    fact: Fact,
) -> Result<Knowledge, Failure<EditRefusal>>
    ensures { EditGives domain.now known.now (RemoveValue fact) result }
{
    if let Some(fault) = value_fault(known, domain, &fact) {
        return Err(Failure::Refused(fault));
    }
    if known.value(&fact).is_none() {
        return Err(Failure::Refused(EditRefusal::NoValue));
    }
    let values = values_but(alloc, known.values.as_slice(), fact)?;
    let mut new = known.copy(alloc)?;
    new.values = Seq::of(values);
    Ok(new)
}

fn set_goal(
    alloc: Global,
    domain: &Domain,
    known: &Knowledge,
    goal: &Cond,
) -> Result<Knowledge, Failure<EditRefusal>>
    ensures { EditGives domain.now known.now (SetGoal goal.now) result }
{
    if let Some(fault) = cond_fault(known, domain, goal) {
        return Err(Failure::Refused(fault));
    }
    let goal = goal.copy(alloc)?;
    let mut new = known.copy(alloc)?;
    new.goal = Some(goal);
    Ok(new)
}

fn remove_goal(
    alloc: Global,
    domain: &Domain,
    known: &Knowledge,
) -> Result<Knowledge, Failure<EditRefusal>>
    ensures { EditGives domain.now known.now RemoveGoal result }
{
    if known.goal.is_none() {
        return Err(Failure::Refused(EditRefusal::NoGoal));
    }
    let mut new = known.copy(alloc)?;
    new.goal = None;
    Ok(new)
}
