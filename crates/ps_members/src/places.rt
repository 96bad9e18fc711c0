//! Where the reader of a member script stands, and what a line says there.
use ps_machine::{Member, Observer, Performer, Unit};
use ps_world::{Cond, Name, Seq};

/// Where the reader stands, with what the lines before said.
#[derive(Drop)]
pub enum Place {
    /// Before the first line.
    Beginning,
    /// After `performer NAME`.
    Named(Name),
    /// After `action NAME`: the performer's name, the action, and how many parameters it has.
    Acting(Name, Name, usize),
    /// After `args`, before the first job.
    Ready(Performer),
    /// In a job, which has these units so far. The performer has the jobs before it.
    Working(Performer, Seq<Unit>),
    /// Between the items of an observer.
    Observing(Observer),
    /// After `when`, before its edit.
    Waiting(Observer, Cond),
    /// After `end`.
    Ended(Member),
}

/// What a line says.
#[derive(Drop)]
pub enum Said {
    /// `performer NAME`
    Performer(Name),
    /// `observer NAME`
    Observer(Name),
    /// `action NAME`
    Action(Name),
    /// `args PLACE*`
    Args(Seq<Option<Name>>),
    /// `job`
    Job,
    /// `when C`
    When(Cond),
    /// `end`
    End,
    /// `work`, `feedback N TEXT`, an edit, `finish ok` or `finish fail`
    Unit(Unit),
}
