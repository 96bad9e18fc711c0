//! Changes of what is known.
use ps_world::{Fact, Goal, Name, Num, Seq};

/// What is changed of what is known: instances, facts and values that go or come, and perhaps the goal.
#[derive(PartialEq, Eq, Drop)]
pub struct Change {
    /// The instances that come, with their types.
    pub instances_in: Seq<(Name, Name)>,
    /// The instances that go.
    pub instances_out: Seq<Name>,
    /// The facts that come.
    pub adds: Seq<Fact>,
    /// The facts that go.
    pub deletes: Seq<Fact>,
    /// The terms that are given values.
    pub values: Seq<(Fact, Num)>,
    /// The terms that lose their values.
    pub gone: Seq<Fact>,
    /// The goal, where it is set or removed.
    pub goal: Option<Option<Goal>>,
}
