//! A row that is expanded.
ghost use Rattle.std.specs.Prelude.{◌≡◌, ◌∷◌, ◌++◌, [], None, false, true, length, option_map, IfOk, OnOk};
ghost use Rattle.std.specs.List.{list_any};
ghost use Rattle.ps_solve.specs.Expansions.{CanTry, CanTryAll, IsExpanding, IsNext, all_led, first_good, kept, lead_to, leads_of, led_by, meets_goal};
ghost use Rattle.ps_solve.specs.Queue.{acts_at, with_lead};
ghost use Rattle.ps_solve.specs.Reached.{places_of};
ghost use Rattle.ps_solve.specs.Rows.{plain_state};

use super::reached::Reached;
use super::rows::Row;
use super::task::Task;
use ps_action::Act;
use ps_ground::Prepared;
use ps_world::Seq;
use std::alloc::AllocError;

/// A row that is expanded, where at most so many rows are kept.
#[derive(Drop)]
pub struct Expansion<'a> {
    pub task: &'a Task<'a>,
    pub here: Row,
    /// Its place among the rows that were reached.
    pub from: u32,
    pub most: u32,
}

impl<'a> Expansion<'a> {
    /// Meets a row to which the ground action at a place leads, and answers whether it meets the goal; then nothing changes. Else it is
    /// kept, if it is new and there is room.
    fn meet(&self, place: u32, next: &Row, reached: &mut Reached) -> Result<bool, AllocError>
        requires expanding { IsExpanding self.now reached.old }
        requires wide { length next.now.flags ≡ length self.now.task.now.grounds.atoms }
        ensures good { IfOk result (λ good. good ≡ meets_goal self.now.task.now
            (plain_state self.now.task.now.grounds.atoms next.now)) }
        ensures leads { IfOk result (λ good. good ≡ false
            → leads_of self.now.task.now reached.new
            ≡ with_lead self.now.most (leads_of self.now.task.now reached.old)
            (lead_to self.now reached.old place next.now)) }
        ensures same { IfOk result (λ good. good ≡ true → reached.new ≡ reached.old) }
        ensures expanding { OnOk result (IsExpanding self.now reached.new) }
    {
        // The atoms say with their slice that they rise.
        let _atoms = self.task.grounds.atoms.as_slice();
        if reached.len() >= self.most as usize {
            return Ok(self.task.is_good(next));
        }
        if reached.contains(next) {
            return Ok(false);
        }
        if self.task.is_good(next) {
            return Ok(true);
        }
        let row = next.copy(self.task.alloc)?;
        reached.push(row, self.from, place)?;
        Ok(false)
    }

    /// Tries the ground action at a place, and answers whether it leads to a row that meets the goal; then nothing is kept. Else the row
    /// that it leads to, if it leads to one, is kept, if it is new and there is room. `next` is where that row is made.
    fn attempt(
        &self,
        place: u32,
        action: &Prepared,
        next: &mut Row,
        reached: &mut Reached,
    ) -> Result<bool, AllocError>
        requires expanding { IsExpanding self.now reached.old }
        requires able { CanTry self.now action.now next.old }
        ensures good { IfOk result (λ good. good
            ≡ list_any (λ l. meets_goal self.now.task.now l.state)
            (led_by self.now reached.old place (action.now ∷ []))) }
        ensures leads { IfOk result (λ good. good ≡ false
            → leads_of self.now.task.now reached.new
            ≡ kept self.now reached.old (led_by self.now reached.old place (action.now ∷ []))) }
        ensures same { IfOk result (λ good. good ≡ true → reached.new ≡ reached.old) }
        ensures expanding { OnOk result (IsExpanding self.now reached.new) }
        ensures wide { OnOk result (length next.new.flags ≡ length next.old.flags) }
    {
        let leads = self.task.step(&self.here, action, next)?;
        if leads {
            self.meet(place, next, reached)
        } else {
            Ok(false)
        }
    }

    /// Tries all ground actions but those that are pruned, in their order, up to the first that leads to a row that meets the goal,
    /// whose place is answered.
    fn attempt_all(
        &self,
        last: Option<u32>,
        next: &mut Row,
        reached: &mut Reached,
    ) -> Result<Option<u32>, AllocError>
        requires expanding { IsExpanding self.now reached.old }
        requires able { CanTryAll self.now last next.old reached.old }
        ensures found { IfOk result (λ place.
            option_map (λ i. places_of reached.old self.now.from ++ i ∷ []) place
            ≡ option_map (λ l. l.places) (first_good self.now (all_led self.now reached.old))) }
        ensures leads { IfOk result (λ place. place ≡ None
            → leads_of self.now.task.now reached.new
            ≡ kept self.now reached.old (all_led self.now reached.old)) }
        ensures places { OnOk result (places_of reached.new self.now.from
            ≡ places_of reached.old self.now.from) }
        ensures expanding { OnOk result (IsExpanding self.now reached.new) }
    {
        let actions = self.task.grounds.actions.as_slice();
        for (i, action) in actions.iter().enumerate() {
            let place = i as u32;
            if self.task.is_pruned(last, place, action) {
                continue;
            }
            let found = self.attempt(place, action, next, reached)?;
            if found {
                return Ok(Some(place));
            }
        }
        Ok(None)
    }

    /// Tries all ground actions in their order, up to the first that leads to a row that meets the goal, whose place is answered.
    fn attempt_each(&self, next: &mut Row, reached: &mut Reached) -> Result<Option<u32>, AllocError>
        requires expanding { IsExpanding self.now reached.old }
        requires wide { length next.old.flags ≡ length self.now.task.now.grounds.atoms }
        ensures found { IfOk result (λ place.
            option_map (λ i. places_of reached.old self.now.from ++ i ∷ []) place
            ≡ option_map (λ l. l.places) (first_good self.now (all_led self.now reached.old))) }
        ensures leads { IfOk result (λ place. place ≡ None
            → leads_of self.now.task.now reached.new
            ≡ kept self.now reached.old (all_led self.now reached.old)) }
        ensures places { OnOk result (places_of reached.new self.now.from
            ≡ places_of reached.old self.now.from) }
        ensures expanding { OnOk result (IsExpanding self.now reached.new) }
    {
        let actions = self.task.grounds.actions.as_slice();
        for (i, action) in actions.iter().enumerate() {
            let place = i as u32;
            let found = self.attempt(place, action, next, reached)?;
            if found {
                return Ok(Some(place));
            }
        }
        Ok(None)
    }

    /// The acts that lead to the row that is expanded, and on by the ground action at a place.
    fn path(&self, place: u32, reached: &Reached) -> Result<Seq<Act>, AllocError>
        requires { IsExpanding self.now reached.now }
        ensures { IfOk result (λ path. path ≡ acts_at self.now.task.now.grounds.actions.items
            (places_of reached.now self.now.from ++ place ∷ [])) }
    {
        let mut places = reached.path(self.task.alloc, self.from as usize)?;
        places.push(place)?;
        self.task.acts_at(places.as_slice())
    }

    /// Meets all that the row leads to. Where some of it meets the goal, the acts that lead to the first are answered, and then it isn't
    /// said what is kept.
    pub fn run(&self, reached: &mut Reached) -> Result<Option<Seq<Act>>, AllocError>
        requires expanding { IsExpanding self.now reached.old }
        requires next { IsNext self.now reached.old }
        ensures found { IfOk result (λ found. found
            ≡ option_map (λ l. acts_at self.now.task.now.grounds.actions.items l.places)
            (first_good self.now (all_led self.now reached.old))) }
        ensures leads { IfOk result (λ found. found ≡ None
            → leads_of self.now.task.now reached.new
            ≡ kept self.now reached.old (all_led self.now reached.old)) }
        ensures expanding { OnOk result (IsExpanding self.now reached.new) }
    {
        let last = reached.last(self.from as usize);
        let mut next = self.here.copy(self.task.alloc)?;
        match self.attempt_all(last, &mut next, reached)? {
            Some(place) => Ok(Some(self.path(place, reached)?)),
            None => Ok(None),
        }
    }

    /// The same where the rows before it may not be expanded, so that nothing may be pruned.
    pub fn run_all(&self, reached: &mut Reached) -> Result<Option<Seq<Act>>, AllocError>
        requires { IsExpanding self.now reached.old }
        ensures found { IfOk result (λ found. found
            ≡ option_map (λ l. acts_at self.now.task.now.grounds.actions.items l.places)
            (first_good self.now (all_led self.now reached.old))) }
        ensures leads { IfOk result (λ found. found ≡ None
            → leads_of self.now.task.now reached.new
            ≡ kept self.now reached.old (all_led self.now reached.old)) }
        ensures expanding { OnOk result (IsExpanding self.now reached.new) }
    {
        let mut next = self.here.copy(self.task.alloc)?;
        match self.attempt_each(&mut next, reached)? {
            Some(place) => Ok(Some(self.path(place, reached)?)),
            None => Ok(None),
        }
    }
}
