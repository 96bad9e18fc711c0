//! What an event changes.
ghost use Rattle.std.specs.Prelude.{◌≡◌, true, IfOk, IsOk};
ghost use Rattle.ps_board.specs.Parts.{takes_only_room};
ghost use Rattle.ps_board.specs.Touching.{started_by, touched_by, touched_by_edit};

use ps_action::{GroundAction, Touched};
use ps_eval::{changed_by, edited_by};
use ps_machine::Event;
use ps_world::Edit;
use std::alloc::{AllocError, Global};

/// The act that an event starts, if it starts one.
pub fn started_by(what: &Event) -> Option<u32>
    ensures { result ≡ started_by what.now }
{
    match what {
        Event::Start(act) => Some(*act),
        _ => None,
    }
}

fn touched_by_edit(alloc: Global, edit: &Edit) -> Result<Vec<Touched>, AllocError>
    ensures { IfOk result (λ touched. touched.items ≡ touched_by_edit edit.now) }
{
    let mut touched = Vec::new(alloc);
    if let Some(thing) = edited_by(edit) {
        touched.push(thing)?;
    }
    Ok(touched)
}

/// What an event changes, where these are the ground actions of the plan. The only error is that memory ran out; an event that takes
/// no memory but room changes nothing.
pub fn touched_by(
    alloc: Global,
    grounds: &[GroundAction],
    what: &Event,
) -> Result<Vec<Touched>, AllocError>
    ensures ok { IfOk result (λ touched. touched.items ≡ touched_by grounds.now what.now) }
    ensures reserved { takes_only_room what.now ≡ true → IsOk result }
{
    match what {
        Event::Edit { by: _, edit } => touched_by_edit(alloc, edit),
        Event::Start(act) => match grounds.get(*act as usize) {
            Some(ground) => changed_by(alloc, ground.effects.at_start.as_slice()),
            None => Ok(Vec::new(alloc)),
        },
        Event::End(act) => match grounds.get(*act as usize) {
            Some(ground) => changed_by(alloc, ground.effects.at_end.as_slice()),
            None => Ok(Vec::new(alloc)),
        },
        _ => Ok(Vec::new(alloc)),
    }
}
