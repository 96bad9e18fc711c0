//! The entries of the journal.
use super::inputs::{LineCause, Query};
use ps_action::{Act, GroundRefusal, PlanRefusal, PlanTextRefusal};
use ps_world::{Duplicate, Edit, EditRefusal, Name, Seq};
use std::alloc::{AllocError, Global};

/// Whose edit it is.
#[derive(Clone, Copy, PartialEq, Eq)]
pub enum By {
    /// The command line with this number, counted from 1.
    Terminal(u32),
    /// A performer, on the request with this number.
    Performer(u64, Name),
    Observer(Name),
}

/// Why something was refused. Causes that print alike count as the first of them.
#[derive(Clone, Copy, PartialEq, Eq)]
pub enum Refusal {
    Line(LineCause),
    Edit(EditRefusal),
    Ground(GroundRefusal),
    Plan(PlanRefusal),
    PlanText(PlanTextRefusal),
    /// There is no goal to plan for.
    NoGoal,
    /// No plan is good.
    NoPlan,
    /// No plan of at most this many acts is good, and no longer one was looked for.
    Spent(u32),
    /// There are too many ground actions.
    TooMany,
    /// No run has been opened.
    NoRun,
    /// The predicate asked for isn't declared.
    NoPredicate,
    /// The action asked for isn't declared.
    NoAction,
}

/// What a run is for.
#[derive(Clone, Copy, PartialEq, Eq)]
pub enum RunKind {
    /// The goal, by a plan of the solver.
    Goal,
    /// The goal, by a plan of the script.
    Plan,
    /// One act.
    Action,
}

/// Why a performer makes no offer.
#[derive(Clone, Copy, PartialEq, Eq)]
pub enum PassWhy {
    /// The request is for another.
    Other,
    /// It is engaged.
    Busy,
    /// The request isn't open.
    Late,
}

/// Why an act failed.
#[derive(Clone, Copy, PartialEq, Eq)]
pub enum FailWhy {
    /// No performer is for it.
    NoPerformer,
    /// Its performer said so.
    Script,
    /// Its end condition is false.
    AtEnd,
    /// Its end effects can't be made.
    Effect,
}

/// Why an act was cancelled.
#[derive(Clone, Copy, PartialEq, Eq)]
pub enum CancelWhy {
    /// Its over-all condition is false.
    OverAll,
    /// Another act failed or was cancelled so.
    Stop,
}

/// How a run ended.
#[derive(Clone, Copy, PartialEq, Eq)]
pub enum Outcome {
    Success,
    /// Its act failed or was cancelled.
    Act,
    /// Nothing can go on.
    Blocked,
    /// There is no goal.
    NoGoal,
    /// It may not be planned anew.
    Replans,
    NoPlan,
    Spent(u32),
    TooMany,
}

/// What happened.
#[derive(PartialEq, Eq, Drop)]
pub enum Event {
    /// An edit was accepted.
    Edit {
        by: By,
        edit: Edit,
    },
    /// A line, or an edit of a member, was refused.
    Refused {
        by: By,
        why: Refusal,
    },
    /// A query was answered.
    Ask(Query),
    /// A run was opened, with these acts as its plan.
    Run {
        kind: RunKind,
        acts: Seq<Act>,
    },
    /// The terminal ended the session.
    Quit,
    /// The act at this place of the plan started.
    Start(u32),
    /// A performer is wanted for an act. Requests are counted from 0.
    Request {
        r: u64,
        act: u32,
    },
    Offer {
        r: u64,
        by: Name,
    },
    Pass {
        r: u64,
        by: Name,
        why: PassWhy,
    },
    Confirm {
        r: u64,
        by: Name,
    },
    Reject {
        r: u64,
        by: Name,
    },
    Begin {
        r: u64,
        by: Name,
    },
    UnitWork {
        r: u64,
        by: Name,
    },
    Feedback {
        r: u64,
        by: Name,
        percent: u8,
        text: Seq<u8>,
    },
    Finish {
        r: u64,
        by: Name,
        ok: bool,
    },
    /// No performer is free for the request.
    Unserved(u64),
    End(u32),
    Fail {
        act: u32,
        why: FailWhy,
    },
    Cancel {
        act: u32,
        why: CancelWhy,
    },
    /// The performer stopped work on a cancelled act.
    Stopped {
        r: u64,
        by: Name,
    },
    /// The run goes on with this plan.
    Replan(Seq<Act>),
    /// The run ended.
    Over(Outcome),
}

/// An entry of the journal: an event and the hand that made it. The terminal's hand is 0.
#[derive(PartialEq, Eq, Drop)]
pub struct Entry {
    pub hand: u8,
    pub what: Event,
}

impl Duplicate for Event {
    fn copy(&self, alloc: Global) -> Result<Self, AllocError> {
        Ok(match self {
            Event::Edit { by, edit } => Event::Edit {
                by: *by,
                edit: edit.copy(alloc)?,
            },
            Event::Refused { by, why } => Event::Refused { by: *by, why: *why },
            Event::Ask(query) => Event::Ask(*query),
            Event::Run { kind, acts } => Event::Run {
                kind: *kind,
                acts: acts.copy(alloc)?,
            },
            Event::Quit => Event::Quit,
            Event::Start(act) => Event::Start(*act),
            Event::Request { r, act } => Event::Request { r: *r, act: *act },
            Event::Offer { r, by } => Event::Offer { r: *r, by: *by },
            Event::Pass { r, by, why } => Event::Pass {
                r: *r,
                by: *by,
                why: *why,
            },
            Event::Confirm { r, by } => Event::Confirm { r: *r, by: *by },
            Event::Reject { r, by } => Event::Reject { r: *r, by: *by },
            Event::Begin { r, by } => Event::Begin { r: *r, by: *by },
            Event::UnitWork { r, by } => Event::UnitWork { r: *r, by: *by },
            Event::Feedback {
                r,
                by,
                percent,
                text,
            } => Event::Feedback {
                r: *r,
                by: *by,
                percent: *percent,
                text: text.copy(alloc)?,
            },
            Event::Finish { r, by, ok } => Event::Finish {
                r: *r,
                by: *by,
                ok: *ok,
            },
            Event::Unserved(r) => Event::Unserved(*r),
            Event::End(act) => Event::End(*act),
            Event::Fail { act, why } => Event::Fail {
                act: *act,
                why: *why,
            },
            Event::Cancel { act, why } => Event::Cancel {
                act: *act,
                why: *why,
            },
            Event::Stopped { r, by } => Event::Stopped { r: *r, by: *by },
            Event::Replan(acts) => Event::Replan(acts.copy(alloc)?),
            Event::Over(outcome) => Event::Over(*outcome),
        })
    }
}

impl Duplicate for Entry {
    fn copy(&self, alloc: Global) -> Result<Self, AllocError> {
        Ok(Entry {
            hand: self.hand,
            what: self.what.copy(alloc)?,
        })
    }
}
