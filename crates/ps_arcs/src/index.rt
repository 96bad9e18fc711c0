//! Ground actions, found by the things that they read and change.
ghost use Rattle.std.specs.Prelude.{◌≡◌, ◌≤◌, ◌<◌, [], length, IfOk, OnOk};
ghost use Rattle.ps_action.specs.Arcs.{changes, reads};
ghost use Rattle.ps_users.specs.Users.{Enters, Marks};
ghost use Rattle.ps_arcs.specs.Indexed.{AreTied, IsIndexed, is_tied};

use super::touching::Touching;
use ps_action::GroundAction;
use ps_users::Users;
use std::alloc::{AllocError, Global};
use std::marker::Model;

/// Ground actions, found by the things that they read and by those that they change. Contracts see the ground actions.
#[derive(Drop)]
pub struct Index<'a> {
    alloc: Global,
    actions: &'a [GroundAction],
    readers: Users,
    changers: Users,
}

impl<'a> Model for Index<'a> {
    ghost use Rattle.std.specs.Prelude.{List};
    ghost use Rattle.std.specs.Coded.{coded_list};
    ghost use Rattle.ps_action.specs.declared.acts.GroundAction.{GroundAction};
    ghost use Rattle.ps_action.specs.contracts.acts.GroundAction.{the_row};
    ghost use Rattle.ps_arcs.specs.Indexed.{IsIndexed};

    ghost Value = { List GroundAction };

    ghost coded = { coded_list the_row.coded };

    ghost view = { λ i. i.actions.now };

    ghost invariant = { λ i. IsIndexed i.actions.now i.readers i.changers };
}

impl<'a> Index<'a> {
    /// These ground actions.
    pub fn of(alloc: Global, actions: &'a [GroundAction]) -> Result<Index<'a>, AllocError>
        requires { length actions.now ≤ 256 }
        ensures { IfOk result (λ index. index ≡ actions.now) }
    {
        let mut readers = Users::new(alloc);
        let mut changers = Users::new(alloc);
        enter_actions(alloc, actions, &mut readers, &mut changers)?;
        Ok(Index {
            alloc,
            actions,
            readers,
            changers,
        })
    }

    /// A flag for each ground action, which tells of the later ones whether there is an arc to them from this place.
    pub fn tied(&self, place: usize) -> Result<Vec<bool>, AllocError>
        requires { place < length self.now }
        ensures { IfOk result (λ flags. AreTied self.now place flags.items) }
    {
        let touching = Touching::of(self.alloc, &self.actions[place])?;
        let mut flags = vec![in self.alloc; false; self.actions.len()]?;
        self.mark_tied(&touching, flags.as_mut_slice());
        Ok(flags)
    }

    /// Sets the flag of each ground action that is tied to one of which this is listed.
    fn mark_tied(&self, touching: &Touching, flags: &mut [bool])
        ensures { Marks flags.old (is_tied self.now touching.now) flags.new }
    {
        self.changers.mark_all(touching.reads(), flags);
        self.readers.mark_all(touching.changes(), flags);
        self.changers.mark_all(touching.changes(), flags);
    }
}

/// Notes what ground actions read and what they change.
fn enter_actions(
    alloc: Global,
    actions: &[GroundAction],
    readers: &mut Users,
    changers: &mut Users,
) -> Result<(), AllocError>
    requires few { length actions.now ≤ 256 }
    requires unread { readers.old ≡ [] }
    requires unchanged { changers.old ≡ [] }
    ensures { OnOk result (IsIndexed actions.now readers.new changers.new) }
{
    for place in 0..actions.len() {
        enter(alloc, &actions[place], place as u32, readers, changers)?;
    }
    Ok(())
}

/// Notes what one ground action reads and what it changes.
fn enter(
    alloc: Global,
    action: &GroundAction,
    place: u32,
    readers: &mut Users,
    changers: &mut Users,
) -> Result<(), AllocError>
    ensures reads { OnOk result (Enters readers.old (reads action.now) place readers.new) }
    ensures changes { OnOk result (Enters changers.old (changes action.now) place changers.new) }
{
    let touching = Touching::of(alloc, action)?;
    readers.enter_all(touching.reads(), place)?;
    changers.enter_all(touching.changes(), place)?;
    Ok(())
}
