//! What the entries so far tell of the work on requests.
ghost use Rattle.std.specs.Prelude.{◌≡◌, ◌≤◌, ℕ, ◌+◌, ◌<◌, ◌++◌, IsTrue, List, [], ◌∷◌, length, OnOk};
ghost use Rattle.ps_machine.specs.declared.journal.Entry.{Entry};
ghost use Rattle.ps_rules.specs.Auctions.{has_begun, is_through, is_working, units_done};
ghost use Rattle.ps_rules.specs.Legal.{is_confirmed};
ghost use Rattle.ps_ledger.specs.Kept.{Keeps, room_left, Takes};
ghost use Rattle.ps_ledger.specs.Work.{begun_job, finished_job, HasJobs, is_by, job_at, longer_job, no_job, speaks_of_jobs, stopped_job, TellsJobs, TellsUnits, TellsWork, with_job, with_worker};

use ps_machine::{By, Event};
use ps_world::Name;
use std::alloc::{AllocError, Global};

/// The work on a request.
#[derive(Clone, Copy)]
pub struct Job {
    /// Who was confirmed.
    pub by: Option<Name>,
    /// Whether it has begun.
    pub begun: bool,
    /// Whether it works.
    pub works: bool,
    /// Whether it has finished or stopped.
    pub through: bool,
    /// How many units it has done.
    pub units: u64,
}

/// The work on all requests so far.
#[derive(Drop)]
pub struct Work {
    pub jobs: Vec<Job>,
}

fn is_by(by: Option<Name>, name: Name) -> bool
    ensures { result ≡ is_by by name }
{
    match by {
        Some(other) => name == other,
        None => false,
    }
}

impl Work {
    /// What an empty journal tells.
    pub fn new(alloc: Global) -> Work
        ensures jobs { TellsJobs [] result }
        ensures work { TellsWork [] result }
        ensures units { TellsUnits [] result }
    {
        Work {
            jobs: Vec::new(alloc),
        }
    }

    /// The work on a request.
    fn job(&self, r: u64) -> Job
        ensures { result ≡ job_at self.now.jobs.items r }
    {
        match self.jobs.get(r as usize) {
            Some(job) => *job,
            None => Job {
                by: None,
                begun: false,
                works: false,
                through: false,
                units: 0,
            },
        }
    }

    /// Whether a performer was confirmed on a request.
    pub fn is_confirmed(&self, r: u64, by: Name) -> bool
        ensures { (es : List Entry) → TellsWork es self.now → result ≡ is_confirmed r by es }
    {
        is_by(self.job(r).by, by)
    }

    /// Whether a performer has begun on a request.
    pub fn has_begun(&self, r: u64, by: Name) -> bool
        ensures { (es : List Entry) → TellsWork es self.now → result ≡ has_begun r by es }
    {
        let job = self.job(r);
        let mine = is_by(job.by, by);
        mine && job.begun
    }

    /// Whether a performer works on a request.
    pub fn is_working(&self, r: u64, by: Name) -> bool
        ensures { (es : List Entry) → TellsWork es self.now → result ≡ is_working r by es }
    {
        let job = self.job(r);
        let mine = is_by(job.by, by);
        mine && job.works
    }

    /// Whether a performer has finished or stopped on a request.
    pub fn is_through(&self, r: u64, by: Name) -> bool
        ensures { (es : List Entry) → TellsUnits es self.now → result ≡ is_through r by es }
    {
        let job = self.job(r);
        let mine = is_by(job.by, by);
        mine && job.through
    }

    /// How many units a performer has done on a request.
    pub fn units_done(&self, r: u64, by: Name) -> u64
        ensures { (es : List Entry) → TellsUnits es self.now → result ≡ units_done r by es }
    {
        let job = self.job(r);
        if is_by(job.by, by) { job.units } else { 0 }
    }

    fn confirm(&mut self, r: u64, by: Name)
        requires { r < length self.now.jobs.items }
        ensures jobs { self.new.jobs.items ≡ with_worker self.old.jobs.items r by }
        ensures spare { room_left self.old.jobs ≤ room_left self.new.jobs }
    {
        self.jobs[r as usize] = Job {
            by: Some(by),
            begun: false,
            works: false,
            through: false,
            units: 0,
        };
    }

    fn begin(&mut self, r: u64)
        requires { r < length self.now.jobs.items }
        ensures jobs { self.new.jobs.items ≡ with_job begun_job self.old.jobs.items r }
        ensures spare { room_left self.old.jobs ≤ room_left self.new.jobs }
    {
        let job = &mut self.jobs[r as usize];
        job.begun = true;
        job.works = true;
    }

    fn end(&mut self, r: u64)
        requires { r < length self.now.jobs.items }
        ensures jobs { self.new.jobs.items ≡ with_job stopped_job self.old.jobs.items r }
        ensures spare { room_left self.old.jobs ≤ room_left self.new.jobs }
    {
        let job = &mut self.jobs[r as usize];
        job.works = false;
        job.through = true;
    }

    fn finish(&mut self, r: u64)
        requires there { r < length self.now.jobs.items }
        requires few { (job_at self.now.jobs.items r).units < 1000 }
        ensures jobs { self.new.jobs.items ≡ with_job finished_job self.old.jobs.items r }
        ensures spare { room_left self.old.jobs ≤ room_left self.new.jobs }
    {
        let job = &mut self.jobs[r as usize];
        job.works = false;
        job.through = true;
        job.units += 1;
    }

    fn count(&mut self, r: u64)
        requires there { r < length self.now.jobs.items }
        requires few { (job_at self.now.jobs.items r).units < 1000 }
        ensures jobs { self.new.jobs.items ≡ with_job longer_job self.old.jobs.items r }
        ensures spare { room_left self.old.jobs ≤ room_left self.new.jobs }
    {
        self.jobs[r as usize].units += 1;
    }

    fn push(&mut self)
        requires { HasJobs 1 self.now }
        ensures same { (r : ℕ) → job_at self.new.jobs.items r ≡ job_at self.old.jobs.items r }
        ensures all { self.new.jobs.items ≡ self.old.jobs.items ++ no_job ∷ [] }
        ensures spare { room_left self.old.jobs ≤ room_left self.new.jobs + 1 }
    {
        let job = Job {
            by: None,
            begun: false,
            works: false,
            through: false,
            units: 0,
        };
        if self.jobs.push(job).is_err() {
            unreachable!();
        }
    }

    /// Makes room for the work on so many requests more.
    pub fn reserve(&mut self, more: usize) -> Result<(), AllocError>
        ensures ok { OnOk result (HasJobs more self.new) }
        ensures spare { room_left self.old.jobs ≤ room_left self.new.jobs }
        ensures jobs { Keeps TellsJobs self.old self.new }
        ensures work { Keeps TellsWork self.old self.new }
        ensures units { Keeps TellsUnits self.old self.new }
    {
        self.jobs.reserve(more)?;
        Ok(())
    }

    /// Takes one more event, which speaks of requests that are there and of work by those who were
    /// confirmed.
    pub fn take(&mut self, event: &Event)
        requires room { HasJobs 1 self.now }
        requires speaks { IsTrue (speaks_of_jobs self.now.jobs.items event.now) }
        ensures jobs { Takes TellsJobs event.now self.old self.new }
        ensures work { Takes TellsWork event.now self.old self.new }
        ensures units { Takes TellsUnits event.now self.old self.new }
        ensures spare { room_left self.old.jobs ≤ room_left self.new.jobs + 1 }
    {
        match event {
            Event::Request { r: _, act: _ } => self.push(),
            Event::Confirm { r, by } => self.confirm(*r, *by),
            Event::Begin { r, by: _ } => self.begin(*r),
            Event::UnitWork { r, by: _ } => self.count(*r),
            Event::Feedback {
                r,
                by: _,
                percent: _,
                text: _,
            } => self.count(*r),
            Event::Edit {
                by: By::Performer(r, _),
                edit: _,
            } => self.count(*r),
            Event::Refused {
                by: By::Performer(r, _),
                why: _,
            } => self.count(*r),
            Event::Finish { r, by: _, ok: _ } => self.finish(*r),
            Event::Stopped { r, by: _ } => self.end(*r),
            _ => {}
        }
    }
}
