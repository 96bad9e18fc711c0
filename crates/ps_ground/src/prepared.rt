//! Ground actions, prepared for steps from row to row.
ghost use Rattle.std.specs.Prelude.{◌≡◌, ◌≤◌, ◌&&◌, List, [], false, filter, filter_map, flat_map, fold, length, map, not, option_to_list, true, ◌∷◌, IfOk, IfSome, IsSome, None};
ghost use Rattle.std.specs.Result.{result_ok};
ghost use Rattle.std.specs.List.{list_all, list_any};
ghost use Rattle.std.specs.Option.{option_copied, option_map_or};
ghost use Rattle.std.specs.BTreeSet.{insert_key};
ghost use Rattle.ps_world.specs.CondViews.{cond_tree};
ghost use Rattle.ps_world.specs.Facts.{fact_cmp};
ghost use Rattle.ps_world.specs.Knowledge.{same_fact};
ghost use Rattle.ps_world.specs.declared.domains.Domain.{Domain as DomainView};
ghost use Rattle.ps_world.specs.declared.facts.Fact.{Fact as FactView};
ghost use Rattle.ps_world.specs.declared.known.Knowledge.{Knowledge as KnowledgeView};
ghost use Rattle.ps_action.specs.Effects.{added_by, deletes};
ghost use Rattle.ps_action.specs.Grounding.{ground_act, put_cond, put_effect, put_spread};
ghost use Rattle.ps_action.specs.Truth.{all_true, is_true};
ghost use Rattle.ps_ground.specs.States.{State, at, changed, stepped};
ghost use Rattle.ps_ground.specs.Moves.{Node, move, moves};
ghost use Rattle.ps_ground.specs.Fitting.{AreFit, IsFit, grounds_of, parts_with};
ghost use Rattle.ps_ground.specs.Atoms.{AddAtoms, AreAtoms, IsOver, MayAddAtoms, adds};
ghost use Rattle.ps_ground.specs.Prepared.{AreSound, IsBare, IsBareTest, IsSound, IsSoundChange, alone_in, is_alone, is_flag, is_number, passes, plain_of, put_alone, successor, successor_nodes, turned, with_at, without_at};
ghost use Rattle.ps_ground.specs.Goals.{MeansGoal};

use super::atoms::{Atoms, ground_in};
use super::footprints::Footprint;
use super::light::lighten;
use ps_action::{Act, GroundAction, first_clash};
use ps_domain::Expert;
use ps_problem::Problem;
use ps_world::{
    Cond, Conditions, Conds, Duplicate, Effect, Effects, Failure, Guarded, Name, Seq, Spread,
};
use smallvec::SmallVec;
use std::alloc::{AllocError, Global};

/// Conditions: the places of the atoms that have to be known, and the other conditions.
#[derive(Drop)]
pub struct Test {
    pub wanted: SmallVec<usize, 2>,
    pub others: Conds,
}

/// What a list of effects changes.
#[derive(Drop)]
pub enum Change {
    /// The flags at the places that are cleared, and then at those that are set.
    Flags {
        cleared: SmallVec<usize, 2>,
        set: SmallVec<usize, 2>,
    },
    /// The effects, some of which give numbers, and the place of the first that gives a term a value that an earlier one gives a
    /// value.
    Effects {
        effects: Seq<Effect>,
        clash: Option<usize>,
    },
    /// The effects, some of which stand under a condition or for each choice of instances: what they stand for is found in each state
    /// anew.
    Spreads {
        effects: Seq<Spread>,
    },
}

/// A prepared ground action.
#[derive(Drop)]
pub struct Prepared {
    pub act: Act,
    pub start: Test,
    pub over: Test,
    pub end: Test,
    pub at_start: Change,
    pub at_end: Change,
    /// What it reads and changes.
    pub footprint: Footprint,
}

impl Test {
    /// The test of no conditions.
    fn bare(alloc: Global) -> Test
        ensures { IsBareTest result }
    {
        Test {
            wanted: SmallVec::new(alloc),
            others: Conds::new(alloc),
        }
    }

    /// The place of the first atom, or 0 where there is none.
    fn first(&self) -> usize {
        self.wanted.as_slice().first().copied().unwrap_or(0)
    }
}

impl Prepared {
    /// What is prepared of a ground action with no conditions and no effects.
    fn bare(alloc: Global, act: Act) -> Prepared
        ensures act { result.act ≡ act }
        ensures tests { IsBare result }
    {
        Prepared {
            act,
            start: Test::bare(alloc),
            over: Test::bare(alloc),
            end: Test::bare(alloc),
            at_start: Change::Effects {
                effects: Seq::new(alloc),
                clash: None,
            },
            at_end: Change::Effects {
                effects: Seq::new(alloc),
                clash: None,
            },
            footprint: Footprint {
                plain: false,
                changed: 0,
                touched: 0,
            },
        }
    }
}

/// Where atoms are looked for first: mostly an act is about the same things as the one before it.
#[derive(Clone, Copy)]
struct Near {
    start: usize,
    over: usize,
}

impl Near {
    /// Where atoms are looked for before there is any act.
    fn nothing() -> Near {
        Near { start: 0, over: 0 }
    }

    /// The first atoms that a prepared ground action reads.
    fn of(before: &Prepared) -> Near {
        Near {
            start: before.start.first(),
            over: before.over.first(),
        }
    }
}

/// What came of putting conditions with their arguments into what is prepared.
#[derive(Clone, Copy)]
pub enum Taken {
    /// They are in.
    Whole,
    /// They hold in no state over the atoms.
    NeverHolds,
    /// They, or the effects, don't speak of facts alone, and so have to be those of a ground action.
    Unready,
}

impl Taken {
    /// Whether they are in.
    fn is_whole(&self) -> bool
        ensures yes { result ≡ true → self.now ≡ Taken.Whole }
        ensures no { result ≡ false → self.now ≡ Taken.Whole → ⊥ }
    {
        match self {
            Taken::Whole => true,
            Taken::NeverHolds => false,
            Taken::Unready => false,
        }
    }
}

/// Puts a condition that isn't of a fact alone into a test. With arguments to put in it is unready.
fn take_other(
    alloc: Global,
    args: &[Name],
    cond: &Cond,
    test: &mut Test,
) -> Result<Taken, AllocError>
    ensures taken { IfOk result (λ taken. taken ≡ Taken.Whole
        → (d : DomainView) (k : KnowledgeView) (atoms : List FactView) (s : State)
        → passes d k atoms test.new s
        ≡ (passes d k atoms test.old s
        && is_true d (at k s) (put_cond args.now (cond_tree cond.now)))) }
    ensures never { IfOk result (λ taken. taken ≡ Taken.NeverHolds → ⊥) }
    ensures ready { IfOk result (λ taken. taken ≡ Taken.Unready → args.now ≡ [] → ⊥) }
{
    if !args.is_empty() {
        return Ok(Taken::Unready);
    }
    test.others.push(cond.copy(alloc)?)?;
    Ok(Taken::Whole)
}

/// Puts a condition with its arguments into a test. It is `NeverHolds` only where it says of a fact that is no atom that it is known.
fn take_in(
    alloc: Global,
    atoms: &Atoms,
    near: usize,
    args: &[Name],
    cond: &Cond,
    test: &mut Test,
) -> Result<Taken, AllocError>
    ensures taken { IfOk result (λ taken. taken ≡ Taken.Whole
        → (d : DomainView) (k : KnowledgeView) (s : State)
        → passes d k atoms.now test.new s
        ≡ (passes d k atoms.now test.old s
        && is_true d (at k s) (put_cond args.now (cond_tree cond.now)))) }
    ensures never { IfOk result (λ taken. taken ≡ Taken.NeverHolds
        → (d : DomainView) (k : KnowledgeView) (s : State) → IsOver atoms.now s
        → is_true d (at k s) (put_cond args.now (cond_tree cond.now)) ≡ false) }
    ensures ready { IfOk result (λ taken. taken ≡ Taken.Unready → args.now ≡ [] → ⊥) }
{
    match cond {
        Cond::Holds(lifted) => match atoms.place_near(near, &ground_in(args, &lifted.get())) {
            Some(place) => {
                test.wanted.push(place)?;
                Ok(Taken::Whole)
            }
            None => Ok(Taken::NeverHolds),
        },
        _ => take_other(alloc, args, cond, test),
    }
}

/// Puts conditions with their arguments into a test.
fn take_all(
    alloc: Global,
    atoms: &Atoms,
    near: usize,
    args: &[Name],
    conds: &Conds,
    test: &mut Test,
) -> Result<Taken, AllocError>
    ensures taken { IfOk result (λ taken. taken ≡ Taken.Whole
        → (d : DomainView) (k : KnowledgeView) (s : State)
        → passes d k atoms.now test.new s
        ≡ (passes d k atoms.now test.old s
        && all_true d (at k s) (map (put_cond args.now) conds.now))) }
    ensures never { IfOk result (λ taken. taken ≡ Taken.NeverHolds
        → (d : DomainView) (k : KnowledgeView) (s : State) → IsOver atoms.now s
        → all_true d (at k s) (map (put_cond args.now) conds.now) ≡ false) }
    ensures ready { IfOk result (λ taken. taken ≡ Taken.Unready → args.now ≡ [] → ⊥) }
{
    for cond in conds.as_slice() {
        let taken = take_in(alloc, atoms, near, args, cond, test)?;
        if !taken.is_whole() {
            return Ok(taken);
        }
    }
    Ok(Taken::Whole)
}

/// The goal, prepared. A fact that is no atom has no place: where the goal says of one that it is known, it stays as it is.
pub fn prepare_goal(alloc: Global, atoms: &Atoms, goal: &Cond) -> Result<Test, AllocError>
    ensures { IfOk result (λ test. (d : DomainView) (k : KnowledgeView)
        → MeansGoal d k atoms.now test goal.now) }
{
    let mut test = Test::bare(alloc);
    let taken = match goal {
        Cond::And(parts) => take_all(alloc, atoms, 0, &[], parts, &mut test)?,
        _ => take_in(alloc, atoms, 0, &[], goal, &mut test)?,
    };
    if taken.is_whole() {
        return Ok(test);
    }
    let mut whole = Test::bare(alloc);
    whole.others.push(goal.copy(alloc)?)?;
    Ok(whole)
}

/// Whether an effect gives a number.
fn is_number(effect: &Effect) -> bool
    ensures { result ≡ is_number effect.now }
{
    match effect {
        Effect::Number(..) => true,
        Effect::Add(_) => false,
        Effect::Delete(_) => false,
    }
}

/// The effect that stands once, with no condition, if this is one.
fn plain_of(spread: &Spread) -> Option<&Effect>
    ensures { option_copied result ≡ plain_of spread.now }
{
    match spread {
        Spread::Once(Guarded::Plain(effect)) => Some(effect),
        Spread::Once(Guarded::When(..)) => None,
        Spread::ForAll(..) => None,
    }
}

/// Whether this is one that gives no number.
fn is_flag(spread: &Spread) -> bool
    ensures { result ≡ is_flag spread.now }
{
    match plain_of(spread) {
        Some(effect) => !is_number(effect),
        None => false,
    }
}

/// Whether each of these is.
fn are_flags(effects: &[Spread]) -> bool
    ensures { result ≡ list_all is_flag effects.now }
{
    effects.iter().all(is_flag)
}

/// Whether each of these stands once, with no condition.
fn are_alone(effects: &[Spread]) -> bool
    ensures { result ≡ list_all is_alone effects.now }
{
    effects.iter().all(|spread| plain_of(spread).is_some())
}

/// The place of the atom that an effect deletes, if it deletes one.
fn deleted(atoms: &Atoms, near: usize, args: &[Name], effect: &Effect) -> Option<usize>
    ensures { (fs : List FactView) → AreAtoms atoms.now fs
        → option_map_or (without_at atoms.now fs) result fs
        ≡ filter (λ f. not (deletes f (put_effect args.now effect.now))) fs }
{
    match effect {
        Effect::Delete(lifted) => atoms.place_near(near, &ground_in(args, lifted)),
        Effect::Add(_) => None,
        Effect::Number(..) => None,
    }
}

/// The same where the effect stands once, with no condition.
fn deleted_alone(atoms: &Atoms, near: usize, args: &[Name], spread: &Spread) -> Option<usize>
    ensures { (fs : List FactView) → AreAtoms atoms.now fs
        → option_map_or (without_at atoms.now fs) result fs
        ≡ filter (λ f. not (list_any (deletes f) (put_alone args.now spread.now))) fs }
{
    match plain_of(spread) {
        Some(effect) => deleted(atoms, near, args, effect),
        None => None,
    }
}

/// The places of the atoms that those of these effects delete which stand once, with no condition.
fn all_deleted(
    alloc: Global,
    atoms: &Atoms,
    near: usize,
    args: &[Name],
    effects: &[Spread],
) -> Result<SmallVec<usize, 2>, AllocError>
    ensures { IfOk result (λ places. (fs : List FactView) → AreAtoms atoms.now fs
        → fold (without_at atoms.now) fs places.items
        ≡ filter (λ f. not (list_any (deletes f) (flat_map (put_alone args.now) effects.now))) fs) }
{
    let mut places = SmallVec::new(alloc);
    for effect in effects {
        if let Some(place) = deleted_alone(atoms, near, args, effect) {
            places.push(place)?;
        }
    }
    Ok(places)
}

/// The place of the atom that an effect adds, if it adds one.
fn added(atoms: &Atoms, near: usize, args: &[Name], effect: &Effect) -> Option<usize>
    ensures { AreAtoms atoms.now (option_to_list (added_by (put_effect args.now effect.now)))
        → (fs : List FactView) → option_map_or (with_at atoms.now fs) result fs
        ≡ fold (insert_key fact_cmp) fs
        (option_to_list (added_by (put_effect args.now effect.now))) }
{
    match effect {
        Effect::Add(lifted) => atoms.place_near(near, &ground_in(args, lifted)),
        Effect::Delete(_) => None,
        Effect::Number(..) => None,
    }
}

/// The same where the effect stands once, with no condition.
fn added_alone(atoms: &Atoms, near: usize, args: &[Name], spread: &Spread) -> Option<usize>
    ensures { AddAtoms atoms.now (put_alone args.now spread.now)
        → (fs : List FactView) → option_map_or (with_at atoms.now fs) result fs
        ≡ fold (insert_key fact_cmp) fs (filter_map added_by (put_alone args.now spread.now)) }
{
    match plain_of(spread) {
        Some(effect) => added(atoms, near, args, effect),
        None => None,
    }
}

/// The places of the atoms that those of these effects add which stand once, with no condition.
fn all_added(
    alloc: Global,
    atoms: &Atoms,
    near: usize,
    args: &[Name],
    effects: &[Spread],
) -> Result<SmallVec<usize, 2>, AllocError>
    ensures { IfOk result (λ places. AddAtoms atoms.now (flat_map (put_alone args.now) effects.now)
        → (fs : List FactView) → fold (with_at atoms.now) fs places.items
        ≡ fold (insert_key fact_cmp) fs
        (filter_map added_by (flat_map (put_alone args.now) effects.now))) }
{
    let mut places = SmallVec::new(alloc);
    for effect in effects {
        if let Some(place) = added_alone(atoms, near, args, effect) {
            places.push(place)?;
        }
    }
    Ok(places)
}

/// Those of these effects that stand once, with no condition.
fn plain_effects(alloc: Global, effects: &[Spread]) -> Result<Seq<Effect>, AllocError>
    ensures { IfOk result (λ plain. plain ≡ flat_map alone_in effects.now) }
{
    let mut plain = Seq::new(alloc);
    for spread in effects {
        if let Some(effect) = plain_of(spread) {
            plain.push(effect.copy(alloc)?)?;
        }
    }
    Ok(plain)
}

/// The change of effects that stand once, with no condition.
fn numbers_of(alloc: Global, effects: &[Spread]) -> Result<Change, AllocError>
    requires { list_all is_alone effects.now ≡ true }
    ensures same { IfOk result (λ change.
        (d : DomainView) (k : KnowledgeView) (atoms : List FactView) (s : State)
        → turned d k atoms change s ≡ changed d k s effects.now) }
    ensures sound { IfOk result (λ change.
        (d : DomainView) (k : KnowledgeView) (atoms : List FactView)
        → MayAddAtoms d k atoms effects.now → IsSoundChange d k atoms change) }
{
    let effects = plain_effects(alloc, effects)?;
    let clash = first_clash(effects.as_slice());
    Ok(Change::Effects { effects, clash })
}

/// The change of a list of effects with no arguments to put in.
fn stated_of(alloc: Global, effects: &Seq<Spread>) -> Result<Change, AllocError>
    ensures same { IfOk result (λ change.
        (d : DomainView) (k : KnowledgeView) (atoms : List FactView) (s : State)
        → turned d k atoms change s ≡ changed d k s effects.now) }
    ensures sound { IfOk result (λ change.
        (d : DomainView) (k : KnowledgeView) (atoms : List FactView)
        → MayAddAtoms d k atoms effects.now → IsSoundChange d k atoms change) }
{
    if are_alone(effects.as_slice()) {
        return numbers_of(alloc, effects.as_slice());
    }
    Ok(Change::Spreads {
        effects: effects.copy(alloc)?,
    })
}

/// The change of effects that stand once, with no condition, and give no number.
fn flags_of(
    alloc: Global,
    atoms: &Atoms,
    near: usize,
    args: &[Name],
    effects: &[Spread],
) -> Result<Change, AllocError>
    requires { list_all is_flag effects.now ≡ true }
    ensures same { IfOk result (λ change.
        (d : DomainView) (k : KnowledgeView) (s : State) → IsOver atoms.now s
        → MayAddAtoms d k atoms.now (map (put_spread args.now) effects.now)
        → turned d k atoms.now change s ≡ changed d k s (map (put_spread args.now) effects.now)) }
    ensures sound { IfOk result (λ change.
        (d : DomainView) (k : KnowledgeView) → IsSoundChange d k atoms.now change) }
{
    let set = all_added(alloc, atoms, near, args, effects)?;
    let cleared = all_deleted(alloc, atoms, near, args, effects)?;
    Ok(Change::Flags { cleared, set })
}

/// The change of a list of effects with their arguments, or None where they don't all add and delete facts, once and with no condition,
/// and there are arguments to put in.
fn change_of(
    alloc: Global,
    atoms: &Atoms,
    near: usize,
    args: &[Name],
    effects: &Seq<Spread>,
) -> Result<Option<Change>, AllocError>
    ensures same { IfOk result (λ made. IfSome made (λ change.
        (d : DomainView) (k : KnowledgeView) (s : State) → IsOver atoms.now s
        → MayAddAtoms d k atoms.now (map (put_spread args.now) effects.now)
        → turned d k atoms.now change s ≡ changed d k s (map (put_spread args.now) effects.now))) }
    ensures sound { IfOk result (λ made. IfSome made (λ change.
        (d : DomainView) (k : KnowledgeView)
        → MayAddAtoms d k atoms.now (map (put_spread args.now) effects.now)
        → IsSoundChange d k atoms.now change)) }
    ensures ready { args.now ≡ [] → IfOk result (λ made. IsSome made) }
{
    if are_flags(effects.as_slice()) {
        return Ok(Some(flags_of(alloc, atoms, near, args, effects.as_slice())?));
    }
    if !args.is_empty() {
        return Ok(None);
    }
    Ok(Some(stated_of(alloc, effects)?))
}

/// Prepares conditions and effects with their arguments into what is bare. It is `NeverHolds` only where they lead nowhere from any state over
/// the atoms.
fn fill(
    alloc: Global,
    atoms: &Atoms,
    near: Near,
    args: &[Name],
    conditions: &Conditions,
    effects: &Effects,
    made: &mut Prepared,
) -> Result<Taken, AllocError>
    requires { IsBare made.old }
    ensures act { made.new.act ≡ made.old.act }
    ensures same { IfOk result (λ taken. taken ≡ Taken.Whole
        → (d : DomainView) (k : KnowledgeView)
        → AreAtoms atoms.now (adds d k (parts_with args.now conditions.now effects.now))
        → (s : State) → IsOver atoms.now s → successor d k atoms.now s made.new
        ≡ stepped d k s (parts_with args.now conditions.now effects.now)) }
    ensures never { IfOk result (λ taken. taken ≡ Taken.NeverHolds
        → (d : DomainView) (k : KnowledgeView)
        → AreAtoms atoms.now (adds d k (parts_with args.now conditions.now effects.now))
        → (s : State) → IsOver atoms.now s
        → stepped d k s (parts_with args.now conditions.now effects.now) ≡ None) }
    ensures sound { IfOk result (λ taken. taken ≡ Taken.Whole
        → (d : DomainView) (k : KnowledgeView)
        → AreAtoms atoms.now (adds d k (parts_with args.now conditions.now effects.now))
        → IsSound d k atoms.now made.new) }
    ensures ready { IfOk result (λ taken. taken ≡ Taken.Unready → args.now ≡ [] → ⊥) }
{
    let start = take_all(
        alloc,
        atoms,
        near.start,
        args,
        &conditions.at_start,
        &mut made.start,
    )?;
    if !start.is_whole() {
        return Ok(start);
    }
    let over = take_all(
        alloc,
        atoms,
        near.over,
        args,
        &conditions.over_all,
        &mut made.over,
    )?;
    if !over.is_whole() {
        return Ok(over);
    }
    let end = take_all(
        alloc,
        atoms,
        near.start,
        args,
        &conditions.at_end,
        &mut made.end,
    )?;
    if !end.is_whole() {
        return Ok(end);
    }
    // Mostly what changes is what was read.
    let read = made.start.first();
    let Some(at_start) = change_of(alloc, atoms, read, args, &effects.at_start)? else {
        return Ok(Taken::Unready);
    };
    let Some(at_end) = change_of(alloc, atoms, read, args, &effects.at_end)? else {
        return Ok(Taken::Unready);
    };
    made.footprint = Footprint::of(&made.start, &made.over, &made.end, &at_start, &at_end);
    made.at_start = at_start;
    made.at_end = at_end;
    Ok(Taken::Whole)
}

/// A ground action, prepared. None only where it leads nowhere from any state over the atoms.
fn prepare_ground(
    alloc: Global,
    atoms: &Atoms,
    action: &GroundAction,
) -> Result<Option<Prepared>, AllocError>
    ensures same { IfOk result (λ made. (d : DomainView) (k : KnowledgeView)
        → AreAtoms atoms.now (adds d k action.now) → (n : Node) → IsOver atoms.now n.state
        → successor_nodes d k atoms.now (option_to_list made) n
        ≡ moves d k (action.now ∷ []) n) }
    ensures sound { IfOk result (λ made. IfSome made (λ one.
        (d : DomainView) (k : KnowledgeView) → AreAtoms atoms.now (adds d k action.now)
        → IsSound d k atoms.now one)) }
{
    let mut made = Prepared::bare(alloc, action.act);
    match fill(
        alloc,
        atoms,
        Near::nothing(),
        &[],
        &action.conditions,
        &action.effects,
        &mut made,
    )? {
        Taken::Whole => Ok(Some(made)),
        Taken::NeverHolds => Ok(None),
        Taken::Unready => unreachable!(),
    }
}

/// An act, prepared from its ground action. None only where it leads nowhere from any state over the atoms.
fn prepare_made(
    alloc: Global,
    expert: &Expert,
    problem: &Problem,
    atoms: &Atoms,
    instances: &[(Name, Name)],
    act: &Act,
) -> Result<Option<Prepared>, AllocError>
    requires { AreAtoms atoms.now (flat_map (adds expert.now problem.now)
        (option_to_list (result_ok (ground_act expert.now instances.now act.now)))) }
    ensures same { IfOk result (λ made. (n : Node) → IsOver atoms.now n.state
        → successor_nodes expert.now problem.now atoms.now (option_to_list made) n
        ≡ moves expert.now problem.now
        (option_to_list (result_ok (ground_act expert.now instances.now act.now))) n) }
    ensures sound { IfOk result (λ made. IfSome made (IsSound expert.now problem.now atoms.now)) }
{
    match expert.ground(instances, act) {
        Ok(mut action) => {
            lighten(alloc, problem, expert, &mut action)?;
            prepare_ground(alloc, atoms, &action)
        }
        Err(Failure::Refused(_)) => Ok(None),
        Err(Failure::OutOfMemory) => Err(AllocError),
    }
}

/// An act, prepared. None only where it leads nowhere from any state over the atoms. Mostly its conditions and effects speak of facts
/// alone, and then its ground action isn't made.
fn prepare(
    alloc: Global,
    expert: &Expert,
    problem: &Problem,
    atoms: &Atoms,
    near: Near,
    instances: &[(Name, Name)],
    act: &Act,
) -> Result<Option<Prepared>, AllocError>
    requires instances { instances.now ≡ problem.now.instances }
    requires fit { IsFit expert.now problem.now act.now }
    requires atoms { AreAtoms atoms.now (flat_map (adds expert.now problem.now)
        (option_to_list (result_ok (ground_act expert.now problem.now.instances act.now)))) }
    ensures same { IfOk result (λ made. (n : Node) → IsOver atoms.now n.state
        → successor_nodes expert.now problem.now atoms.now (option_to_list made) n
        ≡ moves expert.now problem.now
        (option_to_list (result_ok (ground_act expert.now problem.now.instances act.now))) n) }
    ensures sound { IfOk result (λ made. IfSome made (IsSound expert.now problem.now atoms.now)) }
{
    let Some(action) = expert.action(act.action) else {
        unreachable!()
    };
    let args = act.args.as_slice();
    let mut made = Prepared::bare(alloc, *act);
    match fill(
        alloc,
        atoms,
        near,
        args,
        &action.conditions,
        &action.effects,
        &mut made,
    )? {
        Taken::Whole => Ok(Some(made)),
        Taken::NeverHolds => Ok(None),
        Taken::Unready => prepare_made(alloc, expert, problem, atoms, instances, act),
    }
}

/// These acts, prepared, in order, without those that lead nowhere from any state over the atoms: they lead to the same nodes as their
/// ground actions.
pub fn prepare_all(
    alloc: Global,
    expert: &Expert,
    problem: &Problem,
    atoms: &Atoms,
    instances: &[(Name, Name)],
    acts: &[Act],
) -> Result<Vec<Prepared>, AllocError>
    requires instances { instances.now ≡ problem.now.instances }
    requires fit { AreFit expert.now problem.now acts.now }
    requires atoms { AreAtoms atoms.now (flat_map (adds expert.now problem.now)
        (grounds_of expert.now problem.now acts.now)) }
    ensures same { IfOk result (λ all. (n : Node) → IsOver atoms.now n.state
        → successor_nodes expert.now problem.now atoms.now all.items n
        ≡ moves expert.now problem.now (grounds_of expert.now problem.now acts.now) n) }
    ensures sound { IfOk result (λ all. AreSound expert.now problem.now atoms.now all.items) }
    ensures count { IfOk result (λ all. length all.items ≤ length acts.now) }
{
    let mut all = Vec::with_capacity(alloc, acts.len())?;
    let mut near = Near::nothing();
    for act in acts {
        if let Some(one) = prepare(alloc, expert, problem, atoms, near, instances, act)? {
            near = Near::of(&one);
            all.push(one)?;
        }
    }
    Ok(all)
}
