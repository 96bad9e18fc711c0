//! What workers know of a board before they begin.
ghost use Rattle.std.specs.Prelude.{◌≡◌, ◌+◌, ◌<◌, length, IfOk};
ghost use Rattle.std.specs.List.{All, list_any};
ghost use Rattle.ps_pool.specs.Rounds.{passed_before};
ghost use Rattle.ps_pool.specs.Workers.{IsOutline, IsThere, is_for_one, is_observer, is_of_one_act};

use crate::ordered::{Passed, member_at};
use ps_board::Board;
use ps_machine::{Entry, Event, Member, RunKind};
use std::alloc::{AllocError, Global};

/// A member, by its number among those of its kind, in the order of the members.
#[derive(Clone, Copy)]
pub(crate) enum Who {
    Performer(u32),
    Observer(u32),
}

/// The member at this place, before which so many stand, and how many stand before the next place.
fn who_at(board: &Board, k: usize, passed: Passed) -> (Who, Passed)
    requires there { k < length board.now.input.members }
    requires passed { passed ≡ passed_before board.now.input k }
    ensures who { IsThere board.now.input result.0 }
    ensures passed { result.1 ≡ passed_before board.now.input (k + 1) }
{
    match member_at(board, k) {
        Member::Performer(_) => {
            let next = Passed {
                performers: passed.performers + 1,
                observers: passed.observers,
            };
            (Who::Performer(passed.performers), next)
        }
        Member::Observer(_) => {
            let next = Passed {
                performers: passed.performers,
                observers: passed.observers + 1,
            };
            (Who::Observer(passed.observers), next)
        }
    }
}

/// All members, in their order.
pub(crate) fn all_members(alloc: Global, board: &Board) -> Result<Vec<Who>, AllocError>
    ensures { IfOk result (λ members. All (IsThere board.now.input) members.items) }
{
    let mut members = Vec::new(alloc);
    let mut passed = Passed {
        performers: 0,
        observers: 0,
    };
    for k in 0..board.input().members.len() {
        let (who, now) = who_at(board, k, passed);
        members.push(who)?;
        passed = now;
    }
    Ok(members)
}

/// Whether the last entry opens a run of one act, for which no plan is made anew.
fn is_of_one_act(entries: &[Entry]) -> bool
    ensures { result ≡ is_of_one_act entries.now }
{
    match entries.last() {
        Some(entry) => match &entry.what {
            Event::Run {
                kind: RunKind::Action,
                acts: _,
            } => true,
            _ => false,
        },
        None => false,
    }
}

/// Whether one of these members is an observer.
fn has_observer(members: &[Member]) -> bool
    ensures { result ≡ list_any is_observer members.now }
{
    for member in members {
        if let Member::Observer(_) = member {
            return true;
        }
    }
    false
}

/// Whether nothing is to be done beside a unit of work in the run that the last entry opens: it is of one act, so that there
/// is one unit at a time, and there is no observer, who could edit meanwhile.
pub(crate) fn is_for_one(board: &Board) -> bool
    ensures { result ≡ is_for_one board.now.input board.now.entries }
{
    is_of_one_act(board.entries()) && !has_observer(board.input().members.as_slice())
}

/// What workers have to know of a board before they begin.
#[derive(Drop)]
pub(crate) struct Outline {
    pub(crate) members: Vec<Who>,
    pub(crate) budget: u32,
}

/// What workers have to know of this board.
pub(crate) fn outline_of(alloc: Global, board: &Board) -> Result<Outline, AllocError>
    ensures { IfOk result (IsOutline board.now.input) }
{
    let members = all_members(alloc, board)?;
    Ok(Outline {
        members,
        budget: board.input().budget,
    })
}
