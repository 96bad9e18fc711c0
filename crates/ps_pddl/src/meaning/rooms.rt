//! How much room the parts of an action take, so that it is asked for once.
ghost use Rattle.std.specs.Prelude.{◌≡◌, ◌≤◌, [], IfOk, length};

use ps_grammar::Mark;
use ps_lists::{Tree, head, items, rest};
use ps_world::{Conditions, Conds, Effects, Seq};
use std::alloc::{AllocError, Global};

/// How many parts come at each time.
#[derive(Clone, Copy)]
struct Room {
    at_start: usize,
    over_all: usize,
    at_end: usize,
}

/// How many of these parts come at each time, by their first two words.
fn room_of(parts: &[Tree]) -> Room
    ensures at_start { result.at_start ≤ length parts.now }
    ensures over_all { result.over_all ≤ length parts.now }
    ensures at_end { result.at_end ≤ length parts.now }
{
    let mut room = Room {
        at_start: 0,
        over_all: 0,
        at_end: 0,
    };
    for part in parts {
        let words = items(part);
        match head(words).mark {
            Mark::Over => room.over_all += 1,
            Mark::At => match head(rest(words)).mark {
                Mark::Start => room.at_start += 1,
                _ => room.at_end += 1,
            },
            _ => {}
        }
    }
    room
}

/// No conditions, with room for those of these parts.
pub fn room_for_conditions(alloc: Global, parts: &[Tree]) -> Result<Conditions, AllocError>
    ensures { IfOk result (λ all. all ≡ record {
      at_start = [];
      over_all = [];
      at_end = [];
    }) }
{
    let room = room_of(parts);
    let at_start = Vec::with_capacity(alloc, room.at_start)?;
    let over_all = Vec::with_capacity(alloc, room.over_all)?;
    let at_end = Vec::with_capacity(alloc, room.at_end)?;
    Ok(Conditions {
        at_start: Conds::of(at_start),
        over_all: Conds::of(over_all),
        at_end: Conds::of(at_end),
    })
}

/// No effects, with room for those of these parts.
pub fn room_for_effects(alloc: Global, parts: &[Tree]) -> Result<Effects, AllocError>
    ensures { IfOk result (λ all. all ≡ record {
      at_start = [];
      at_end = [];
    }) }
{
    let room = room_of(parts);
    let at_start = Vec::with_capacity(alloc, room.at_start)?;
    let at_end = Vec::with_capacity(alloc, room.at_end)?;
    Ok(Effects {
        at_start: Seq::of(at_start),
        at_end: Seq::of(at_end),
    })
}
