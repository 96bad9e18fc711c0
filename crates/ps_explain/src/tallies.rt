//! How far the members of a session are, and at which line of its file each of them is.
use ps_machine::{By, Event, Member, Performer, Unit};
use ps_reasons::name_of;
use ps_remarks::{Origin, Said, part_of};
use ps_script::{Kind, kind_of};
use ps_text::script_lines;
use ps_world::{Edit, Name};
use std::alloc::{AllocError, Global};

/// How many jobs a member began, and how many of its units are done since then, or of an observer's since the last run.
#[derive(Clone, Copy)]
struct Count {
    member: Name,
    jobs: usize,
    units: usize,
}

/// How far members are.
#[derive(Drop)]
pub struct Tally {
    counts: Vec<Count>,
    /// The requests of the plan, each with its act.
    requests: Vec<(u64, u32)>,
    /// The performers that were confirmed, each with its act.
    confirmed: Vec<(u32, Name)>,
}

impl Tally {
    /// Nobody has done anything.
    pub fn new(alloc: Global) -> Tally {
        Tally {
            counts: Vec::new(alloc),
            requests: Vec::new(alloc),
            confirmed: Vec::new(alloc),
        }
    }

    /// How far a member is.
    fn count(&self, member: Name) -> Count {
        let found = self.counts.iter().find(|count| count.member == member);
        found.copied().unwrap_or(Count {
            member,
            jobs: 0,
            units: 0,
        })
    }

    /// Sets how far a member is.
    fn set(&mut self, new: Count) -> Result<(), AllocError> {
        for count in self.counts.iter_mut() {
            if count.member == new.member {
                *count = new;
                return Ok(());
            }
        }
        self.counts.push(new)?;
        Ok(())
    }

    /// Goes on with a new run.
    fn run(&mut self) {
        for count in self.counts.iter_mut() {
            count.units = 0;
        }
    }

    /// Goes on with a plan: no act of it has a performer.
    fn plan(&mut self, alloc: Global) {
        self.requests = Vec::new(alloc);
        self.confirmed = Vec::new(alloc);
    }

    /// A member begins its next job.
    fn begin(&mut self, member: Name) -> Result<(), AllocError> {
        let mut count = self.count(member);
        count.jobs = count.jobs.saturating_add(1);
        count.units = 0;
        self.set(count)
    }

    /// A member is done with its next unit.
    fn unit(&mut self, member: Name) -> Result<(), AllocError> {
        let mut count = self.count(member);
        count.units = count.units.saturating_add(1);
        self.set(count)
    }

    /// A performer is confirmed for the act of a request.
    fn confirm(&mut self, r: u64, performer: Name) -> Result<(), AllocError> {
        let found = self.requests.iter().find(|request| request.0 == r).copied();
        if let Some((_, act)) = found {
            self.confirmed.push((act, performer))?;
        }
        Ok(())
    }

    /// The performer that was confirmed last for an act of the plan.
    pub fn performer(&self, act: u32) -> Option<Name> {
        let confirmed = self.confirmed.as_slice().iter();
        confirmed.rev().find(|one| one.0 == act).map(|one| one.1)
    }

    /// Takes one entry more.
    pub fn take(&mut self, alloc: Global, event: &Event) -> Result<(), AllocError> {
        match event {
            Event::Run { .. } => {
                self.run();
                self.plan(alloc);
                Ok(())
            }
            Event::Replan(_) => {
                self.plan(alloc);
                Ok(())
            }
            Event::Request { r, act } => {
                self.requests.push((*r, *act))?;
                Ok(())
            }
            Event::Confirm { r, by } => self.confirm(*r, *by),
            Event::Begin { by, .. } => self.begin(*by),
            Event::UnitWork { by, .. }
            | Event::Feedback { by, .. }
            | Event::Finish { by, .. }
            | Event::Edit {
                by: By::Performer(_, by) | By::Observer(by),
                ..
            }
            | Event::Refused {
                by: By::Performer(_, by) | By::Observer(by),
                ..
            } => self.unit(*by),
            _ => Ok(()),
        }
    }

    /// The job, counted from 0, that a performer is at.
    fn job(&self, performer: &Performer) -> usize {
        let last = performer.jobs.as_slice().len().saturating_sub(1);
        let begun = self.count(performer.name).jobs;
        begun.saturating_sub(1).min(last)
    }

    /// The edit that a member is at, if it is at one.
    pub fn edit<'a>(&self, member: &'a Member) -> Option<&'a Edit> {
        let at = self.count(name_of(member)).units;
        match member {
            Member::Observer(observer) => {
                let unit = observer.units.as_slice().get(at);
                unit.map(|unit| &unit.1)
            }
            Member::Performer(performer) => {
                let job = performer.jobs.as_slice().get(self.job(performer))?;
                match job.as_slice().get(at) {
                    Some(Unit::Edit(edit)) => Some(edit),
                    _ => None,
                }
            }
        }
    }

    /// The line that a member is at in its text.
    pub fn line(
        &self,
        alloc: Global,
        member: &Member,
        source: usize,
        text: &[u8],
    ) -> Result<Option<Origin>, AllocError> {
        let at = self.count(name_of(member)).units;
        match member {
            Member::Observer(_) => line_of_edit(alloc, source, text, at),
            Member::Performer(performer) => {
                line_of_unit(alloc, source, text, self.job(performer), at)
            }
        }
    }
}

/// Whether a line of an observer's text is an edit.
fn is_edit(alloc: Global, line: &[u8]) -> Result<bool, AllocError> {
    let said = Said::of(alloc, line)?;
    Ok(said.is(0, b"set") || said.is(0, b"remove"))
}

/// The line of an observer's edit, counted from 0.
fn line_of_edit(
    alloc: Global,
    source: usize,
    text: &[u8],
    at: usize,
) -> Result<Option<Origin>, AllocError> {
    let mut left = at;
    for span in &script_lines(alloc, text)? {
        if is_edit(alloc, part_of(text, span.from, span.to))? {
            if left == 0 {
                return Ok(Some(Origin {
                    source,
                    from: span.from,
                    to: span.to,
                }));
            }
            left = left.saturating_sub(1);
        }
    }
    Ok(None)
}

/// What a line of a performer's text is to its jobs.
#[derive(Clone, Copy)]
enum Part {
    Nothing,
    Job,
    Other,
}

/// What a line of a performer's text is to its jobs.
fn part_in(alloc: Global, line: &[u8]) -> Result<Part, AllocError> {
    if let Kind::Nothing = kind_of(alloc, line)? {
        return Ok(Part::Nothing);
    }
    let said = Said::of(alloc, line)?;
    Ok(if said.is(0, b"job") {
        Part::Job
    } else {
        Part::Other
    })
}

/// The line of a performer's unit, counted from 0, in a job, counted from 0.
fn line_of_unit(
    alloc: Global,
    source: usize,
    text: &[u8],
    job: usize,
    at: usize,
) -> Result<Option<Origin>, AllocError> {
    let mut jobs: usize = 0;
    let mut left = at;
    for span in &script_lines(alloc, text)? {
        match part_in(alloc, part_of(text, span.from, span.to))? {
            Part::Nothing => {}
            Part::Job => jobs = jobs.saturating_add(1),
            Part::Other if jobs <= job => {}
            Part::Other if left == 0 => {
                return Ok(Some(Origin {
                    source,
                    from: span.from,
                    to: span.to,
                }));
            }
            Part::Other => left = left.saturating_sub(1),
        }
    }
    Ok(None)
}
