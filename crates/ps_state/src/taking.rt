//! Taking events that may come next.
ghost use Rattle.std.specs.Prelude.{◌≡◌, true, ◌<◌, [], ◌∷◌, ◌++◌, All, IfOk, IsOk, OnErr, OnOk, filter_map, length, map};
ghost use Rattle.ps_world.specs.Knowledge.{edited};
ghost use Rattle.ps_action.specs.Arcs.{arcs_of};
ghost use Rattle.ps_action.specs.Grounding.{ground_act};
ghost use Rattle.ps_action.specs.Trees.{waits_of};
ghost use Rattle.ps_rules.specs.Known.{changed, grounds, kept};
ghost use Rattle.ps_rules.specs.Members.{as_observer, as_performer, observers, performers};
ghost use Rattle.ps_ledger.specs.Acts.{IsCancelled};
ghost use Rattle.ps_ledger.specs.Legal.{HasMembersOf};
ghost use Rattle.ps_ledger.specs.Ledger.{HasRoom, HasSpare, KeepsSpare, Speaks, TellsAll};
ghost use Rattle.ps_state.specs.State.{Stands};
ghost use Rattle.ps_state.specs.Awaiting.{Advances, KeepsAwaiting, MayBegin, MayBePlan, TakesCancelOf, TakesEvent};
ghost use Rattle.ps_state.specs.Taking.{GoesOn, HasSameBase, leaves_known, part_of};

use super::lines::count_due;
use super::state::State;
use ps_action::{Act, Arcs, GroundAction, Known};
use ps_arcs::arcs_of;
use ps_domain::Expert;
use ps_eval::apply;
use ps_ledger::Ledger;
use ps_machine::{Event, Input, Member};
use ps_problem::Problem;
use ps_tree::Tree;
use ps_world::{Duplicate, Edit, Failure, Name, Spread};
use std::alloc::{AllocError, Global};

/// The start effects of the ground action at this place.
fn start_effects(grounds: &[GroundAction], act: u32) -> &[Spread]
    ensures { result.now ≡ part_of (λ g. g.effects.at_start) grounds.now act }
{
    match grounds.get(act as usize) {
        Some(ground) => ground.effects.at_start.as_slice(),
        None => &[],
    }
}

/// The end effects of the ground action at this place.
fn end_effects(grounds: &[GroundAction], act: u32) -> &[Spread]
    ensures { result.now ≡ part_of (λ g. g.effects.at_end) grounds.now act }
{
    match grounds.get(act as usize) {
        Some(ground) => ground.effects.at_end.as_slice(),
        None => &[],
    }
}

/// Makes effects, if they are defined. Where memory runs out nothing changes.
fn change(expert: &Expert, problem: &mut Problem, effects: &[Spread]) -> Result<(), AllocError>
    ensures ok { OnOk result
        (problem.new ≡ kept problem.old (changed expert.now problem.old effects.now)) }
    ensures err { OnErr result (problem.new ≡ problem.old) }
{
    match apply(problem, expert, effects) {
        Ok(_) => Ok(()),
        Err(Failure::Refused(_)) => Ok(()),
        Err(Failure::OutOfMemory) => Err(AllocError),
    }
}

/// Makes an edit, if it isn't refused. Where memory runs out nothing changes.
fn make(expert: &Expert, problem: &mut Problem, edit: &Edit) -> Result<(), AllocError>
    ensures ok { OnOk result
        (problem.new ≡ kept problem.old (edited expert.now problem.old edit.now)) }
    ensures err { OnErr result (problem.new ≡ problem.old) }
{
    match problem.edit(expert, edit) {
        Ok(_) => Ok(()),
        Err(Failure::Refused(_)) => Ok(()),
        Err(Failure::OutOfMemory) => Err(AllocError),
    }
}

/// The ground action of an act that can be grounded.
fn ground_one(
    expert: &Expert,
    instances: &[(Name, Name)],
    act: &Act,
) -> Result<GroundAction, AllocError>
    requires { IsOk (ground_act expert.now instances.now act.now) }
    ensures { IfOk result (λ g. grounds expert.now (act.now ∷ []) ≡ g ∷ []) }
{
    match expert.ground(instances, act) {
        Ok(ground) => Ok(ground),
        Err(Failure::Refused(_)) => unreachable!(),
        Err(Failure::OutOfMemory) => Err(AllocError),
    }
}

/// Adds the ground action of an act that can be grounded.
fn add_ground(
    expert: &Expert,
    instances: &[(Name, Name)],
    act: &Act,
    all: &mut Vec<GroundAction>,
) -> Result<(), AllocError>
    requires { IsOk (ground_act expert.now instances.now act.now) }
    ensures { OnOk result
        (all.new.items ≡ all.old.items ++ grounds expert.now (act.now ∷ [])) }
{
    let ground = ground_one(expert, instances, act)?;
    all.push(ground)?;
    Ok(())
}

/// The ground actions of acts that can be grounded.
fn grounds_of(
    alloc: Global,
    expert: &Expert,
    problem: &Problem,
    acts: &[Act],
) -> Result<Vec<GroundAction>, AllocError>
    requires { All (λ act. IsOk (ground_act expert.now problem.now.instances act)) acts.now }
    ensures { IfOk result (λ all. all.items ≡ grounds expert.now acts.now) }
{
    let instances = Known::instances(problem);
    let mut all = Vec::new(alloc);
    for act in acts {
        add_ground(expert, instances, act, &mut all)?;
    }
    Ok(all)
}

impl State {
    /// Makes room for an event.
    pub fn make_room(&mut self, event: &Event) -> Result<(), AllocError>
        ensures ok { OnOk result (HasRoom event.now self.new.ledger) }
        ensures kept { KeepsAwaiting self.old self.new }
        ensures plan { MayBegin event.now self.old → MayBegin event.now self.new }
        ensures spare { KeepsSpare self.old.ledger self.new.ledger }
    {
        self.ledger.make_room(event)
    }

    /// Makes room for so many events that make no plan.
    pub fn reserve(&mut self, more: usize) -> Result<(), AllocError>
        ensures ok { OnOk result (HasSpare more self.new.ledger) }
        ensures kept { KeepsAwaiting self.old self.new }
        ensures spare { KeepsSpare self.old.ledger self.new.ledger }
        ensures acts { self.new.ledger.acts ≡ self.old.ledger.acts }
        ensures rest { self.new ≡ record self.old { ledger = self.new.ledger } }
    {
        self.ledger.reserve(more)
    }

    /// Keeps the ground actions of a plan, with their arcs and the tree over them. Where memory runs out nothing changes.
    fn begin(&mut self, alloc: Global, acts: &[Act]) -> Result<(), AllocError>
        requires { MayBePlan self.now.expert self.now.problem acts.now }
        ensures grounds { OnOk result (self.new.grounds.items ≡ grounds self.old.expert acts.now) }
        ensures arcs { OnOk result (self.new.arcs.pairs ≡ arcs_of self.new.grounds.items) }
        ensures acts { OnOk result (self.new.arcs.acts ≡ length acts.now) }
        ensures tree { OnOk result (self.new.tree.waits ≡ waits_of self.new.arcs) }
        ensures known { self.new.problem ≡ self.old.problem }
        ensures base { HasSameBase self.old self.new }
        ensures err { OnErr result (self.new ≡ self.old) }
    {
        let grounds = grounds_of(alloc, &self.expert, &self.problem, acts)?;
        let arcs = arcs_of(alloc, &grounds)?;
        let tree = Tree::build(alloc, &arcs)?;
        self.grounds = grounds;
        self.arcs = arcs;
        self.tree = tree;
        Ok(())
    }

    /// Changes what is known as a start or an end does, and keeps the ground actions of a new plan. Where memory runs out nothing
    /// changes; other events take none.
    fn go_on(&mut self, alloc: Global, event: &Event) -> Result<(), AllocError>
        requires { MayBegin event.now self.now }
        ensures ok { OnOk result (GoesOn event.now self.old self.new) }
        ensures err { OnErr result (self.new ≡ self.old) }
        ensures reserved { leaves_known event.now ≡ true → IsOk result }
    {
        match event {
            Event::Start(act) => {
                let effects = start_effects(&self.grounds, *act);
                change(&self.expert, &mut self.problem, effects)
            }
            Event::End(act) => {
                let effects = end_effects(&self.grounds, *act);
                change(&self.expert, &mut self.problem, effects)
            }
            Event::Run { kind: _, acts } => self.begin(alloc, acts.as_slice()),
            Event::Replan(acts) => self.begin(alloc, acts.as_slice()),
            _ => Ok(()),
        }
    }

    /// Changes all but the ledger as an event does that may come next. Where memory runs out nothing changes; an event that leaves
    /// what is known and the plan takes none.
    pub fn advance(&mut self, alloc: Global, event: &Event) -> Result<(), AllocError>
        requires { MayBegin event.now self.now }
        ensures ok { OnOk result (Advances event.now self.old self.new) }
        ensures base { OnOk result (HasSameBase self.old self.new) }
        ensures err { OnErr result (self.new ≡ self.old) }
        ensures reserved { leaves_known event.now ≡ true → IsOk result }
    {
        match event {
            Event::Edit { by: _, edit } => make(&self.expert, &mut self.problem, edit),
            _ => self.go_on(alloc, event),
        }
    }

    /// Takes an event that may come next, where it is an edit one that has been made. The only error is out of memory.
    pub fn take(&mut self, alloc: Global, event: &Event) -> Result<(), AllocError>
        requires room { HasRoom event.now self.now.ledger }
        requires speaks { Speaks event.now self.now.ledger }
        requires plan { MayBegin event.now self.now }
        ensures { OnOk result (TakesEvent event.now self.old self.new) }
    {
        self.go_on(alloc, event)?;
        self.ledger.take(event);
        Ok(())
    }

    /// Takes the cancel of an act.
    pub fn cancel(&mut self, act: u32)
        requires { act < length self.now.ledger.acts.states.items }
        ensures told { TakesCancelOf act self.old self.new }
        ensures states { IsCancelled act self.old.ledger.acts self.new.ledger.acts }
    {
        self.ledger.cancel(act);
    }
}

/// Adds the name of a member, if it is a performer.
fn push_performer(names: &mut Vec<Name>, member: &Member) -> Result<(), AllocError>
    ensures { OnOk result (names.new.items
        ≡ names.old.items ++ map (λ p. p.name) (filter_map as_performer (member.now ∷ []))) }
{
    match member {
        Member::Performer(performer) => {
            names.push(performer.name)?;
            Ok(())
        }
        Member::Observer(_) => Ok(()),
    }
}

/// Adds the name of a member, if it is an observer.
fn push_observer(names: &mut Vec<Name>, member: &Member) -> Result<(), AllocError>
    ensures { OnOk result (names.new.items
        ≡ names.old.items ++ map (λ o. o.name) (filter_map as_observer (member.now ∷ []))) }
{
    match member {
        Member::Observer(observer) => {
            names.push(observer.name)?;
            Ok(())
        }
        Member::Performer(_) => Ok(()),
    }
}

/// The names of the performers, in order.
fn performer_names(alloc: Global, input: &Input) -> Result<Vec<Name>, AllocError>
    ensures { IfOk result (λ names. names.items ≡ map (λ p. p.name) (performers input.now)) }
{
    let mut names = Vec::new(alloc);
    for member in input.members.as_slice() {
        push_performer(&mut names, member)?;
    }
    Ok(names)
}

/// The names of the observers, in order.
fn observer_names(alloc: Global, input: &Input) -> Result<Vec<Name>, AllocError>
    ensures { IfOk result (λ names. names.items ≡ map (λ o. o.name) (observers input.now)) }
{
    let mut names = Vec::new(alloc);
    for member in input.members.as_slice() {
        push_observer(&mut names, member)?;
    }
    Ok(names)
}

/// What the entries tell of the members of an input, before the first entry.
fn first_ledger(alloc: Global, input: &Input) -> Result<Ledger, AllocError>
    ensures members { IfOk result (HasMembersOf input.now) }
    ensures told { IfOk result (TellsAll []) }
{
    let performers = performer_names(alloc, input)?;
    let observers = observer_names(alloc, input)?;
    Ledger::new(alloc, performers, observers)
}

/// The arcs of no act, and the tree over them.
fn first_tree(alloc: Global) -> Result<(Arcs, Tree), AllocError>
    ensures acts { IfOk result (λ kept. kept.0.acts ≡ 0) }
    ensures pairs { IfOk result (λ kept. kept.0.pairs ≡ []) }
    ensures tree { IfOk result (λ kept. kept.1.waits ≡ waits_of kept.0) }
{
    let arcs = Arcs::new(alloc, 0)?;
    let tree = Tree::build(alloc, &arcs)?;
    Ok((arcs, tree))
}

impl State {
    /// What is kept before the first entry.
    // Each step that may fail comes where little is owned, since its failure lets go of all that is.
    pub fn new(alloc: Global, input: &Input) -> Result<State, AllocError>
        ensures { IfOk result (Stands input.now []) }
    {
        let expert = input.domain.copy(alloc)?;
        let problem = Problem::new(alloc, &expert)?;
        let ledger = first_ledger(alloc, input)?;
        let (arcs, tree) = first_tree(alloc)?;
        Ok(State {
            expert,
            due: count_due(input.lines.as_slice()),
            problem,
            ledger,
            grounds: Vec::new(alloc),
            arcs,
            tree,
        })
    }
}
