//! Watched conditions, found by what they read.
ghost use Rattle.std.specs.Prelude.{◌≡◌, ◌≢◌, ℕ, ◌+◌, ◌<◌, ◌≤◌, [], is_some, length, Some, None, false, true, slice_index_or, OnOk, OnErr};
ghost use Rattle.ps_action.specs.Touching.{read_by_list};
ghost use Rattle.ps_users.specs.Users.{Enters, GrowsBy};
ghost use Rattle.ps_monitor.specs.Indexed.{watch_at};
ghost use Rattle.ps_monitor.specs.Watched.{is_false};
ghost use Rattle.ps_monitor.specs.Hits.{is_hit};

use super::acts::Acts;
use super::judge::Judge;
use super::watch::Watch;
use ps_action::Touched;
use ps_users::Users;
use std::alloc::{AllocError, Global};
use std::marker::Model;

/// Watched conditions, found by what they read. Contracts see at the place of each watched act its condition.
#[derive(Drop)]
pub struct Watches {
    places: Vec<Option<Watch>>,
    /// The acts but the first that read each thing and place: all that do, and perhaps some that did.
    readers: Users,
}

impl Model for Watches {
    ghost use Rattle.std.specs.Prelude.{List, Option};
    ghost use Rattle.std.specs.Coded.{codes};
    ghost use Rattle.ps_world.specs.Trees.{CondTree, conds_code};
    ghost use Rattle.ps_monitor.specs.Indexed.{IsIndexed};

    ghost Value = { List (Option (List CondTree)) };

    ghost coded = { Prim.hlevel (codes, conds_code) };

    ghost view = { λ w. w.places.items };

    ghost invariant = { λ w. IsIndexed w.places.items w.readers };
}

/// Makes sure that there is a place. The only error is running out of memory.
fn make_place(places: &mut Vec<Option<Watch>>, act: usize) -> Result<(), AllocError>
    requires { act < 256 }
    ensures same { (other : ℕ) → watch_at places.new.items other ≡ watch_at places.old.items other }
    ensures ok { OnOk result (act < length places.new.items) }
{
    for next in places.len()..act + 1 {
        places.push(None)?;
    }
    Ok(())
}

/// Notes what a watched condition reads, but for the first act: that one is always looked at, so that a plan of one act needs no index.
/// Where memory runs out some of it may be noted.
fn enter(readers: &mut Users, act: u32, watch: &Watch) -> Result<(), AllocError>
    ensures ok { OnOk result (act ≢ 0 → Enters readers.old (read_by_list watch.now) act readers.new) }
    ensures more { GrowsBy readers.old act readers.new }
{
    if act == 0 {
        return Ok(());
    }
    readers.enter_all(watch.reads(), act)
}

impl Watches {
    /// Nothing is watched.
    pub fn new(alloc: Global) -> Watches
        ensures { result ≡ [] }
    {
        Watches {
            places: Vec::new(alloc),
            readers: Users::new(alloc),
        }
    }

    /// The number from which on no act is watched.
    pub fn len(&self) -> usize
        ensures { result ≡ length self.now }
    {
        self.places.len()
    }

    /// Watches an act with this condition. Where memory runs out nothing changes but that what the condition reads may lead to the
    /// act, which does no harm.
    pub fn put(&mut self, act: u32, watch: Watch) -> Result<(), AllocError>
        requires { act < 256 }
        ensures ok { OnOk result (watch_at self.new act ≡ Some watch) }
        ensures others { (other : ℕ) → other ≢ act → watch_at self.new other ≡ watch_at self.old other }
        ensures err { OnErr result ((other : ℕ) → watch_at self.new other ≡ watch_at self.old other) }
    {
        make_place(&mut self.places, act as usize)?;
        enter(&mut self.readers, act, &watch)?;
        self.places[act as usize] = Some(watch);
        Ok(())
    }

    /// Watches an act no longer. What it read goes on to lead to it, until all is cleared.
    pub fn remove(&mut self, act: u32)
        ensures same { watch_at self.new act ≡ None }
        ensures others { (other : ℕ) → other ≢ act → watch_at self.new other ≡ watch_at self.old other }
    {
        let place = act as usize;
        if place < self.places.len() {
            self.places[place] = None;
        }
    }

    /// Watches nothing any longer.
    pub fn clear(&mut self)
        ensures { self.new ≡ [] }
    {
        self.places.clear();
        self.readers.clear();
    }

    /// Whether an act is watched.
    pub fn is_watched(&self, act: u32) -> bool
        ensures { result ≡ is_some (watch_at self.now act) }
    {
        match self.places.get(act as usize) {
            Some(Some(_)) => true,
            _ => false,
        }
    }

    /// Acts, among which are all that something in a list hits.
    pub fn candidates(&self, changed: &[Touched]) -> Acts
        ensures many { length result.marks ≡ 256 }
        ensures all { (act : ℕ) → act < 256 → is_hit changed.now (watch_at self.now act) ≡ true
            → slice_index_or result.marks act false ≡ true }
    {
        let mut acts = Acts::none();
        self.readers.mark_all(changed, &mut acts.marks);
        acts.add(0);
        acts
    }

    /// Whether an act is watched and something in a list hits it.
    pub fn is_hit(&self, changed: &[Touched], act: u32) -> bool
        ensures { result ≡ is_hit changed.now (watch_at self.now act) }
    {
        match self.places.get(act as usize) {
            Some(Some(watch)) => watch.is_hit(changed),
            _ => false,
        }
    }

    /// Whether an act is watched and its condition is false. It asks the judge once at most.
    pub fn is_false<J: Judge>(&self, judge: &mut J, act: u32) -> bool
        requires { J.count judge.old < 9223372036854775808 }
        ensures same { result ≡ is_false (J.domain judge.old) (J.known judge.old) (watch_at self.now act) }
        ensures count { J.count judge.new ≤ J.count judge.old + 1 }
        ensures domain { J.domain judge.new ≡ J.domain judge.old }
        ensures known { J.known judge.new ≡ J.known judge.old }
    {
        match self.places.get(act as usize) {
            Some(Some(watch)) => !judge.judge(watch.over()),
            _ => false,
        }
    }
}
