//! The tree of a plan.
ghost use Rattle.std.specs.Prelude.{◌≡◌, ◌<◌, [], ◌∷◌, length, IfOk};
ghost use Rattle.std.specs.List.{list_all};
ghost use Rattle.ps_action.specs.Trees.{in_parallel, is_ready, is_success, root_status, state_at, tree_text, wait_status, waits_of};
ghost use Rattle.ps_tree.specs.Parts.{root_over, waiting_acts};

use super::status::{is_success, is_waiting, sequence_status, state_at, wait_status};
use super::text::{push_line, push_sequences};
use super::waits::{Waits, waits_at, waits_of};
use ps_action::{ActState, Arcs, Status};
use std::alloc::{AllocError, Global};
use std::marker::Model;

/// The states of acts, which contracts see as a list. Nothing here takes memory.
pub trait ActView {
    ghost use Rattle.std.specs.Prelude.{List};
    ghost use Rattle.ps_action.specs.declared.states.ActState.{ActState};

    ghost states: { Self → List ActState };

    /// The state of an act.
    fn state(&self, act: u32) -> ActState
        requires { act < length (states self.now) }
        ensures { result ≡ state_at (states self.now) act };
}

/// The behaviour tree of a plan. Its root has a sequence for each act, with a leaf for each act that the act waits for and a leaf
/// for the act. Contracts see what each act waits for, and the states of the acts.
#[derive(Drop)]
pub struct Tree {
    alloc: Global,
    acts: u32,
    waits: Vec<Waits>,
    states: Vec<ActState>,
}

impl Model for Tree {
    ghost use Rattle.std.specs.Prelude.{◌≡◌, length};
    ghost use Rattle.ps_action.specs.Trees.{TreeView};

    ghost Value = { TreeView };

    ghost view = { λ t. record { waits = t.waits.items; states = t.states.items } };

    ghost invariant = { λ t. (length t.waits.items ≡ t.acts) × (length t.states.items ≡ t.acts) };
}

impl Tree {
    /// The tree of these arcs, in which each act waits.
    pub fn build(alloc: Global, arcs: &Arcs) -> Result<Tree, AllocError>
        ensures waits { IfOk result (λ tree. tree.waits ≡ waits_of arcs.now) }
        ensures states { IfOk result (λ tree. tree.states ≡ waiting_acts arcs.now.acts) }
    {
        let acts = arcs.acts();
        let waits = waits_of(alloc, arcs)?;
        let states = vec![in alloc; ActState::Waiting; acts as usize]?;
        Ok(Tree {
            alloc,
            acts,
            waits,
            states,
        })
    }

    /// Takes over the states of the acts, and answers the status of the root. It takes no memory.
    pub fn tick(&mut self, view: &dyn ActView) -> Status
        requires { length (states view.now) ≡ length self.old.waits }
        ensures states { self.new.states ≡ states view.now }
        ensures waits { self.new.waits ≡ self.old.waits }
        ensures status { result ≡ root_status self.new }
    {
        take_states(self.acts, self.states.as_mut_slice(), view);
        root_status(self.acts, self.states.as_slice(), self.waits.as_slice())
    }

    /// Takes over the states of the acts, as a tick does, from a list. It takes no memory.
    pub fn take(&mut self, all: &[ActState])
        requires { length all.now ≡ length self.old.waits }
        ensures states { self.new.states ≡ all.now }
        ensures waits { self.new.waits ≡ self.old.waits }
    {
        self.states.copy_from_slice(all);
    }

    /// Whether by the states of the last tick an act may begin: it waits, and each act that it waits for is done.
    pub fn ready(&self, act: u32) -> bool
        requires { act < length self.now.waits }
        ensures { result ≡ is_ready self.now act }
    {
        let states = self.states.as_slice();
        let waits = waits_at(self.waits.as_slice(), act);
        are_done(states, waits) && is_waiting(state_at(states, act))
    }

    /// The lines of all nodes, by the states of the last tick.
    pub fn text(&self) -> Result<Vec<u8>, AllocError>
        ensures { IfOk result (λ text. text.items ≡ tree_text self.now) }
    {
        let states = self.states.as_slice();
        let waits = self.waits.as_slice();
        let mut text = Vec::new(self.alloc);
        push_line(
            b"parallel",
            root_status(self.acts, states, waits),
            &mut text,
        )?;
        push_sequences(states, waits, self.acts, &mut text)?;
        Ok(text)
    }
}

/// Writes the states of so many acts, which are all.
fn take_states(acts: u32, all: &mut [ActState], view: &dyn ActView)
    requires room { length all.old ≡ acts }
    requires seen { length (states view.now) ≡ acts }
    ensures { all.new ≡ states view.now }
{
    for act in 0..acts {
        all[act as usize] = view.state(act);
    }
}

/// Whether each of these acts is done.
fn are_done(states: &[ActState], waits: &[u32]) -> bool
    ensures { result ≡ list_all (λ i. is_success (wait_status (state_at states.now i))) waits.now }
{
    for wait in waits {
        if !is_success(wait_status(state_at(states, *wait))) {
            return false;
        }
    }
    true
}

/// The status of two children in parallel.
fn joined(one: Status, other: Status) -> Status
    ensures { result ≡ in_parallel (one ∷ other ∷ []) }
{
    match (one, other) {
        (Status::Failure, _) | (_, Status::Failure) => Status::Failure,
        (Status::Success, Status::Success) => Status::Success,
        _ => Status::Running,
    }
}

/// The status of the root over the sequences of so many acts.
fn root_status(acts: u32, states: &[ActState], all: &[Waits]) -> Status
    ensures { result ≡ root_over states.now all.now acts }
{
    let mut status = Status::Success;
    for act in 0..acts {
        status = joined(status, sequence_status(states, waits_at(all, act), act));
    }
    status
}
