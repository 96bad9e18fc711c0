//! Rules with the users of each place, and their closures.
ghost use Rattle.std.specs.Prelude.{◌≡◌, ◌++◌, [], ◌∷◌, All, IfOk, OnOk, length};
ghost use Rattle.ps_closing.specs.Closing.{AreClosed, FitsIn, Grows};
ghost use Rattle.ps_closing.specs.Users.{AreSeen, Queues};

use super::closing::{apply_all, apply_users};
use super::rule::Rule;
use super::users::users_of;
use std::alloc::{AllocError, Global};
use std::marker::Model;

/// Rules with the users of each place, by their places in the list of rules. Contracts see the rules.
#[derive(Drop)]
pub struct Rules {
    rules: Vec<Rule>,
    users: Vec<Vec<usize>>,
}

impl Model for Rules {
    ghost use Rattle.std.specs.Prelude.{List};
    ghost use Rattle.ps_closing.specs.declared.rule.Rule.{Rule};
    ghost use Rattle.ps_closing.specs.Users.{AreUsers};

    ghost Value = { List Rule };

    ghost view = { λ r. r.rules.items };

    ghost invariant = { λ r. AreUsers r.rules.items r.users.items };
}

impl Rules {
    /// These rules, over so many places.
    pub fn of(alloc: Global, rules: Vec<Rule>, places: usize) -> Result<Rules, AllocError>
        requires { All (FitsIn places) rules.items }
        ensures { IfOk result (λ all. all ≡ rules.items) }
    {
        let users = users_of(alloc, &rules, places)?;
        Ok(Rules { rules, users })
    }

    /// The rules.
    pub fn as_slice(&self) -> &[Rule]
        ensures { result.now ≡ self.now }
    {
        self.rules.as_slice()
    }

    /// The rules, without the users of places.
    pub fn into_vec(self) -> Vec<Rule>
        ensures { result.items ≡ self }
    {
        let Rules { rules, users: _ } = self;
        rules
    }

    /// Looks at a place: sets what each of its users gives that is usable then.
    fn look_at(
        &self,
        out: Option<usize>,
        flags: &mut [bool],
        queue: &mut Vec<usize>,
        place: usize,
    ) -> Result<(), AllocError>
        requires fits { All (FitsIn (length flags.old)) self.now }
        requires seen { AreSeen out self.now flags.old (queue.old.items ++ place ∷ []) }
        ensures seen { OnOk result (AreSeen out self.now flags.new queue.new.items) }
        ensures grows { OnOk result (Grows out self.now flags.old flags.new) }
        ensures queues { OnOk result (Queues flags.old flags.new queue.old.items queue.new.items) }
    {
        match self.users.get(place) {
            Some(users) => {
                apply_users(out, flags, queue, self.as_slice(), users)?;
                Ok(())
            }
            None => Ok(()),
        }
    }

    /// Sets all that the rules give one after another, but for the place left out.
    fn close_in(
        &self,
        alloc: Global,
        out: Option<usize>,
        flags: &mut [bool],
    ) -> Result<(), AllocError>
        requires { All (FitsIn (length flags.old)) self.now }
        ensures { OnOk result (AreClosed out self.now flags.old flags.new) }
    {
        let mut queue = Vec::new(alloc);
        apply_all(out, flags, &mut queue, self.as_slice())?;
        while let Some(place) = queue.pop() {
            self.look_at(out, flags, &mut queue, place)?;
        }
        Ok(())
    }

    /// The places that are set at the start, with all that the rules give one after another, but for the place left out. A rule is looked at
    /// once at first, and once more for each place that it needs and that gets set.
    pub fn close(
        &self,
        alloc: Global,
        out: Option<usize>,
        start: &[bool],
    ) -> Result<Vec<bool>, AllocError>
        requires { All (FitsIn (length start.now)) self.now }
        ensures { IfOk result (λ flags. AreClosed out self.now start.now flags.items) }
    {
        let mut flags = Vec::from_slice(alloc, start)?;
        self.close_in(alloc, out, &mut flags)?;
        Ok(flags)
    }
}
