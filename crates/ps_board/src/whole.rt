//! What a board is made of.
ghost use Rattle.std.specs.Prelude.{◌≡◌, ◌≤◌, IsTrue, true, false, max, IfOk, IsOk, OnOk, OnErr, Some};
ghost use Rattle.ps_rules.specs.Legal.{has_hand};
ghost use Rattle.ps_state.specs.Awaiting.{MayBegin};
ghost use Rattle.ps_board.specs.Kept.{IsShown};
ghost use Rattle.ps_board.specs.Parts.{BoardStands, Covers, edit_of, Gains, GainsNothing, HasBlock, HasPlaces, HasSpare, is_quiet, IsDue, IsGrown, makes_plan, MayCome, most_entries, Spends};
ghost use Rattle.ps_board.specs.Touching.{touched_by};

use super::blocks::{cancel_all, enter, is_fail, only_if, reserve};
use super::touched::{started_by, touched_by};
use super::watching::{broken_since, unwatch_ended, unwatch_started, watch_started};
use ps_action::Touched;
use ps_actors::Choice;
use ps_eval::edited_by;
use ps_machine::{By, CancelWhy, Entry, Event, Input, Refusal};
use ps_monitor::Monitor;
use ps_state::State;
use ps_world::{Edit, Failure};
use std::alloc::{AllocError, Global};

/// The parts of a board.
#[derive(Drop)]
pub struct Parts {
    pub input: Input,
    pub entries: Vec<Entry>,
    pub state: State,
    pub monitor: Monitor,
    /// For how many entries more, and for what they tell, room is kept.
    pub spare: usize,
}

/// Whether an event leaves what is known, the plan and the states of its acts.
fn is_quiet(what: &Event) -> bool
    ensures { result ≡ is_quiet what.now }
{
    match what {
        Event::Edit { by: _, edit: _ } => false,
        Event::Run { kind: _, acts: _ } => false,
        Event::Replan(_) => false,
        Event::Start(_) => false,
        Event::End(_) => false,
        Event::Fail { act: _, why: _ } => false,
        Event::Cancel { act: _, why: _ } => false,
        _ => true,
    }
}

/// Whether an event makes a plan.
fn makes_plan(what: &Event) -> bool
    ensures { result ≡ makes_plan what.now }
{
    match what {
        Event::Run { kind: _, acts: _ } => true,
        Event::Replan(_) => true,
        _ => false,
    }
}

impl Parts {
    /// Appends the block of an event that changed these things, where all but the entries and what they tell is as it is after that
    /// event.
    #[inline(always)]
    fn append(&mut self, hand: u8, what: Event, changed: &[Touched])
        requires due { IsDue self.now hand what }
        requires changed { changed.now ≡ touched_by self.now.state.grounds.items what }
        ensures stands { BoardStands self.new }
        ensures entries { HasBlock self.old hand what self.new }
        ensures input { self.new.input ≡ self.old.input }
        ensures spare { Spends self.old self.new }
    {
        if is_quiet(&what) {
            self.append_quiet(hand, what);
        } else {
            self.append_forcing(hand, what, changed);
        }
    }

    /// Appends the block of an event that forces no cancel: that event alone. No condition that is watched need be judged.
    #[inline(always)]
    fn append_quiet(&mut self, hand: u8, what: Event)
        requires due { IsDue self.now hand what }
        requires quiet { is_quiet what ≡ true }
        ensures stands { BoardStands self.new }
        ensures entries { HasBlock self.old hand what self.new }
        ensures input { self.new.input ≡ self.old.input }
        ensures spare { Spends self.old self.new }
    {
        let entry = Entry { hand, what };
        enter(&mut self.entries, &mut self.state.ledger, entry);
        self.spare = self.spare.saturating_sub(1);
    }

    /// Appends the block of an event that may force cancels, and that changed these things. Only those watched acts are judged that
    /// it may have broken, and none where no act is active.
    #[inline(always)]
    fn append_forcing(&mut self, hand: u8, what: Event, changed: &[Touched])
        requires due { IsDue self.now hand what }
        requires changed { changed.now ≡ touched_by self.now.state.grounds.items what }
        ensures stands { BoardStands self.new }
        ensures entries { HasBlock self.old hand what self.new }
        ensures input { self.new.input ≡ self.old.input }
        ensures spare { Spends self.old self.new }
    {
        let fails = is_fail(&what);
        let started = started_by(&what);
        let before = self.entries.len();
        let entry = Entry { hand, what };
        enter(&mut self.entries, &mut self.state.ledger, entry);
        let active = self.state.ledger.acts.count_active();
        if active == 0 {
            let left = self.spare.saturating_sub(1);
            self.spare = left;
            return;
        }
        let broken = broken_since(
            &self.monitor,
            &self.state.problem,
            &self.state.expert,
            changed,
            started,
        );
        let others = self.monitor.others(&broken);
        let any = cancel_all(
            &mut self.entries,
            &mut self.state.ledger,
            &mut self.monitor,
            hand,
            CancelWhy::OverAll,
            &broken,
        );
        let stopped = only_if(fails | any, others);
        cancel_all(
            &mut self.entries,
            &mut self.state.ledger,
            &mut self.monitor,
            hand,
            CancelWhy::Stop,
            &stopped,
        );
        self.spare = self.spare.saturating_sub(self.entries.len() - before);
    }

    /// How many entries the block of an event has at most.
    fn most_entries(&self, what: &Event) -> usize
        ensures { result ≡ most_entries self.now.state.ledger what.now }
    {
        if is_quiet(what) {
            1
        } else if is_fail(what) {
            self.state.ledger.acts.count_active()
        } else {
            257
        }
    }

    /// Makes room for the block of an event, which has at most so many entries, where it isn't kept already. The only error is that
    /// memory ran out.
    fn make_room(&mut self, what: &Event, most: usize) -> Result<(), AllocError>
        requires some { 1 ≤ most }
        requires room { HasSpare self.now.spare self.now }
        ensures ok { OnOk result (HasPlaces what.now most self.new) }
        ensures grown { IsGrown self.old self.new }
        ensures plan { MayBegin what.now self.old.state → MayBegin what.now self.new.state }
        ensures spare { self.new.spare ≡ self.old.spare }
        ensures reserved { makes_plan what.now ≡ false → most ≤ self.old.spare → IsOk result }
    {
        if most <= self.spare && !makes_plan(what) {
            let _capacity = self.entries.capacity();
            return Ok(());
        }
        self.state.make_room(what)?;
        reserve(&mut self.entries, most)
    }

    /// Makes room, so that at least so many entries are spare. The only error is that memory ran out.
    pub fn reserve(&mut self, n: usize) -> Result<(), AllocError>
        requires { BoardStands self.now }
        ensures stands { BoardStands self.new }
        ensures grown { IsGrown self.old self.new }
        ensures shown { IsShown self.old → IsShown self.new }
        ensures ok { OnOk result (self.new.spare ≡ max self.old.spare n) }
        ensures err { OnErr result (self.new.spare ≡ self.old.spare) }
    {
        if self.spare < n {
            self.state.reserve(n)?;
            reserve(&mut self.entries, n)?;
            self.spare = n;
        }
        Ok(())
    }

    /// Makes all that is kept ready for the block of a legal event: memory, what is watched, what is known and the plan. Answers what
    /// the event changes. The only error is that memory ran out, and then what is kept still stands.
    fn prepare(&mut self, alloc: Global, hand: u8, what: &Event) -> Result<Vec<Touched>, AllocError>
        requires stands { BoardStands self.now }
        requires legal { MayCome self.now what.now }
        requires plan { MayBegin what.now self.now.state }
        requires by { IsTrue (has_hand what.now hand) }
        ensures ok { OnOk result (IsDue self.new hand what.now) }
        ensures changed { IfOk result
            (λ changed. changed.items ≡ touched_by self.new.state.grounds.items what.now) }
        ensures err { OnErr result (BoardStands self.new) }
        ensures entries { self.new.entries.items ≡ self.old.entries.items }
        ensures input { self.new.input ≡ self.old.input }
        ensures spare { self.new.spare ≡ self.old.spare }
        ensures reserved { Covers self.old hand (Some what.now) → IsOk result }
    {
        let most = self.most_entries(what);
        self.make_room(what, most)?;
        let changed = touched_by(alloc, &self.state.grounds, what)?;
        watch_started(&mut self.monitor, &self.state.grounds, what)?;
        match self.state.advance(alloc, what) {
            Ok(()) => {
                unwatch_ended(&mut self.monitor, what);
                Ok(changed)
            }
            Err(error) => {
                unwatch_started(&mut self.monitor, what);
                Err(error)
            }
        }
    }

    /// Appends the block of a legal event. The only error is that memory ran out, and then no entry is appended; a block that is covered
    /// takes none.
    pub fn put(&mut self, alloc: Global, hand: u8, what: Event) -> Result<(), AllocError>
        requires stands { BoardStands self.now }
        requires legal { MayCome self.now what }
        requires plan { MayBegin what self.now.state }
        requires by { IsTrue (has_hand what hand) }
        ensures stands { BoardStands self.new }
        ensures did { OnOk result (Gains hand (Some what) self.old self.new) }
        ensures err { OnErr result (GainsNothing self.old self.new) }
        ensures reserved { Covers self.old hand (Some what) → IsOk result }
    {
        let changed = self.prepare(alloc, hand, &what)?;
        self.append(hand, what, &changed);
        Ok(())
    }

    /// Appends the block of a legal event that was chosen. The only error is that memory ran out, and then no entry is appended; a
    /// block that is covered takes none.
    pub fn choose(&mut self, alloc: Global, hand: u8, choice: &Choice) -> Result<(), AllocError>
        requires stands { BoardStands self.now }
        requires legal { MayCome self.now choice.now }
        requires plan { MayBegin choice.now self.now.state }
        requires by { IsTrue (has_hand choice.now hand) }
        ensures stands { BoardStands self.new }
        ensures did { OnOk result (Gains hand (Some choice.now) self.old self.new) }
        ensures err { OnErr result (GainsNothing self.old self.new) }
        ensures reserved { Covers self.old hand (Some choice.now) → IsOk result }
    {
        let what = choice.event();
        let changed = self.prepare(alloc, hand, &what)?;
        self.append(hand, what, &changed);
        Ok(())
    }

    /// Makes an edit and records it, or records why it is refused, where what records it is legal. The only error is that memory
    /// ran out, and then no entry is appended.
    pub fn record(&mut self, hand: u8, by: By, edit: Edit) -> Result<(), AllocError>
        requires stands { BoardStands self.now }
        requires legal { MayCome self.now (edit_of self.now by edit) }
        requires hand { IsTrue (has_hand (edit_of self.now by edit) hand) }
        ensures stands { BoardStands self.new }
        ensures did { OnOk result
            (Gains hand (Some (edit_of self.old by edit)) self.old self.new) }
        ensures err { OnErr result (GainsNothing self.old self.new) }
    {
        self.make_room(&Event::Quit, 257)?;
        match self.state.problem.edit(&self.state.expert, &edit) {
            Ok(_) => {
                let changed = edited_by(&edit);
                self.append(hand, Event::Edit { by, edit }, changed.as_slice());
                Ok(())
            }
            Err(Failure::Refused(why)) => {
                let why = Refusal::Edit(why);
                self.append_quiet(hand, Event::Refused { by, why });
                Ok(())
            }
            Err(Failure::OutOfMemory) => Err(AllocError),
        }
    }

    /// Lets the tree show the states of the acts. It takes no memory.
    pub fn show(&mut self)
        requires { BoardStands self.now }
        ensures stands { BoardStands self.new }
        ensures shown { IsShown self.new }
        ensures entries { self.new.entries.items ≡ self.old.entries.items }
        ensures input { self.new.input ≡ self.old.input }
        ensures spare { self.new.spare ≡ self.old.spare }
    {
        self.state.tick_tree();
    }
}
