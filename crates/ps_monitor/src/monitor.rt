//! What active acts need while they run.
ghost use Rattle.std.specs.Prelude.{◌≡◌, ◌≢◌, ℕ, ◌+◌, ◌<◌, ◌≤◌, not, is_some, ◌&&◌, ◌||◌, length, Some, None, false, true, if◌then◌else◌, slice_index_or, OnOk, OnErr};
ghost use Rattle.ps_monitor.specs.Watched.{broken, is_false, is_other, marked, others, watched};
ghost use Rattle.ps_monitor.specs.Hits.{but_for, due, HeldBefore, hit, is_hit, is_started};

use super::acts::Acts;
use super::judge::{Judge, Judging};
use super::watch::Watch;
use super::watches::Watches;
use ps_action::Touched;
use ps_domain::Expert;
use ps_problem::Problem;
use ps_world::Conds;
use std::alloc::{AllocError, Global};

/// Whether an act is the one that has just started.
fn is_started(started: Option<u32>, act: u32) -> bool
    ensures { result ≡ is_started started act }
{
    match started {
        Some(it) => act == it,
        None => false,
    }
}

/// The watched acts with their over-all conditions.
#[derive(Drop)]
pub struct Monitor {
    alloc: Global,
    /// For each act below 256 its condition, if it is watched.
    pub watches: Watches,
}

impl Monitor {
    /// Nothing is watched.
    pub fn new(alloc: Global) -> Monitor
        ensures { (act : ℕ) → watched result act ≡ None }
    {
        Monitor {
            alloc,
            watches: Watches::new(alloc),
        }
    }

    /// Watches an act with its condition. The only error is running out of memory, and then nothing changes.
    pub fn watch(&mut self, act: u32, over: &Conds) -> Result<(), AllocError>
        requires { act < 256 }
        ensures ok { OnOk result (watched self.new act ≡ Some over.now) }
        ensures others { (other : ℕ) → other ≢ act → watched self.new other ≡ watched self.old other }
        ensures err { OnErr result ((other : ℕ) → watched self.new other ≡ watched self.old other) }
    {
        let watch = Watch::of(self.alloc, over)?;
        self.watches.put(act, watch)
    }

    /// Watches an act no longer.
    pub fn unwatch(&mut self, act: u32)
        ensures same { watched self.new act ≡ None }
        ensures others { (other : ℕ) → other ≢ act → watched self.new other ≡ watched self.old other }
    {
        self.watches.remove(act);
    }

    /// Watches nothing any longer.
    pub fn clear(&mut self)
        ensures { (act : ℕ) → watched self.new act ≡ None }
    {
        self.watches.clear();
    }

    /// The number from which on no act is watched.
    fn count(&self) -> u32
        ensures few { result ≤ 256 }
        ensures none { (act : ℕ) → act < 256 → result ≤ act → watched self.now act ≡ None }
    {
        self.watches.len().min(256) as u32
    }

    /// The watched acts whose condition is false, in rising order. `changed` names what has changed since each of them was
    /// true. The answer is exact whatever it names, for each watched condition is judged; `broken_by` judges those alone that read
    /// what changed. It takes no memory.
    pub fn broken(&self, problem: &Problem, expert: &Expert, _changed: &[Touched]) -> Acts
        ensures list { (n : ℕ) → n ≤ 256 → marked result n ≡ broken expert.now problem.now self.now n }
        ensures each { (act : ℕ) → act < 256 → slice_index_or result.marks act false
            ≡ is_false expert.now problem.now (watched self.now act) }
    {
        let mut judge = Judging::new(problem, expert);
        let mut all = Acts::none();
        for act in 0..self.count() {
            all.set(act, self.watches.is_false(&mut judge, act));
        }
        all
    }

    /// Whether an act is watched and something in a list hits it: a fact or a value that its condition reads, or that stands where a
    /// variable of it may lead, or an instance that it names, or any instance where it binds variables.
    pub fn is_hit(&self, changed: &[Touched], act: u32) -> bool
        ensures { result ≡ is_hit changed.now (watched self.now act) }
    {
        self.watches.is_hit(changed, act)
    }

    /// Whether an act is watched, one of these things hits it, and its condition is false. It judges only an act that is hit.
    fn is_broken<J: Judge>(&self, judge: &mut J, changed: &[Touched], act: u32) -> bool
        requires { J.count judge.old < 9223372036854775808 }
        ensures hit { is_hit changed.now (watched self.now act) ≡ true
            → result ≡ is_false (J.domain judge.old) (J.known judge.old) (watched self.now act) }
        ensures unhit { is_hit changed.now (watched self.now act) ≡ false → result ≡ false }
        ensures count { J.count judge.new ≤ J.count judge.old
            + (if is_hit changed.now (watched self.now act) then 1 else 0) }
        ensures domain { J.domain judge.new ≡ J.domain judge.old }
        ensures known { J.known judge.new ≡ J.known judge.old }
    {
        if !self.is_hit(changed, act) {
            return false;
        }
        self.watches.is_false(judge, act)
    }

    /// Whether an act is watched and its condition is false. It judges only an act that has just started or that is hit.
    fn judge_act<J: Judge>(
        &self,
        judge: &mut J,
        changed: &[Touched],
        started: Option<u32>,
        candidates: &Acts,
        act: u32,
    ) -> bool
        requires act { act < 256 }
        requires count { J.count judge.old < 9223372036854775808 }
        requires candidates { (a : ℕ) → a < 256 → is_hit changed.now (watched self.now a) ≡ true
            → slice_index_or candidates.now.marks a false ≡ true }
        requires held { HeldBefore (J.domain judge.old) (J.known judge.old)
            (but_for started (watched self.now)) changed.now }
        ensures same { result ≡ is_false (J.domain judge.old) (J.known judge.old) (watched self.now act) }
        ensures count { J.count judge.new ≤ J.count judge.old
            + (if is_started started act || is_hit changed.now (watched self.now act) then 1 else 0) }
        ensures domain { J.domain judge.new ≡ J.domain judge.old }
        ensures known { J.known judge.new ≡ J.known judge.old }
    {
        if is_started(started, act) {
            return self.watches.is_false(judge, act);
        }
        if !candidates.has(act) {
            return false;
        }
        self.is_broken(judge, changed, act)
    }

    /// The watched acts whose condition is false, where before a change that the list names none was false but of those acts that
    /// something in the list hits, and of one that has just started: that one wasn't watched, and its condition may be false whatever
    /// changed. It judges those alone, and takes no memory.
    pub fn broken_since<J: Judge>(
        &self,
        judge: &mut J,
        changed: &[Touched],
        started: Option<u32>,
    ) -> Acts
        requires count { J.count judge.old ≤ 4611686018427387904 }
        requires held { HeldBefore (J.domain judge.old) (J.known judge.old)
            (but_for started (watched self.now)) changed.now }
        ensures list { (n : ℕ) → n ≤ 256 → marked result n
            ≡ broken (J.domain judge.old) (J.known judge.old) self.now n }
        ensures each { (act : ℕ) → act < 256 → slice_index_or result.marks act false
            ≡ is_false (J.domain judge.old) (J.known judge.old) (watched self.now act) }
        ensures count { J.count judge.new ≤ J.count judge.old
            + length (due changed.now started (watched self.now) 256) }
        ensures domain { J.domain judge.new ≡ J.domain judge.old }
        ensures known { J.known judge.new ≡ J.known judge.old }
    {
        let candidates = self.watches.candidates(changed);
        let mut all = Acts::none();
        for act in 0..self.count() {
            all.set(
                act,
                self.judge_act(judge, changed, started, &candidates, act),
            );
        }
        all
    }

    /// The watched acts whose condition is false, where before a change that the list names none was false but of those acts that
    /// something in the list hits. It judges those alone, and takes no memory.
    pub fn broken_by<J: Judge>(&self, judge: &mut J, changed: &[Touched]) -> Acts
        requires count { J.count judge.old ≤ 4611686018427387904 }
        requires held { HeldBefore (J.domain judge.old) (J.known judge.old) (watched self.now) changed.now }
        ensures list { (n : ℕ) → n ≤ 256 → marked result n
            ≡ broken (J.domain judge.old) (J.known judge.old) self.now n }
        ensures each { (act : ℕ) → act < 256 → slice_index_or result.marks act false
            ≡ is_false (J.domain judge.old) (J.known judge.old) (watched self.now act) }
        ensures count { J.count judge.new ≤ J.count judge.old
            + length (hit changed.now (watched self.now) 256) }
        ensures domain { J.domain judge.new ≡ J.domain judge.old }
        ensures known { J.known judge.new ≡ J.known judge.old }
    {
        self.broken_since(judge, changed, None)
    }

    /// The watched acts that aren't among these.
    pub fn others(&self, these: &Acts) -> Acts
        ensures { (n : ℕ) → n ≤ 256 → marked result n ≡ others self.now these.now n }
    {
        let mut all = Acts::none();
        for act in 0..self.count() {
            all.set(act, self.is_other(these, act));
        }
        all
    }

    /// Whether an act is watched and isn't among these.
    fn is_other(&self, these: &Acts, act: u32) -> bool
        requires { act < 256 }
        ensures { result ≡ is_other self.now these.now act }
    {
        self.watches.is_watched(act) && !these.has(act)
    }
}
