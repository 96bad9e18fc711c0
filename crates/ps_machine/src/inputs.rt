//! The input of a session.
use super::members::Member;
use ps_action::{Act, PlanStep, PlanTextRefusal};
use ps_domain::Expert;
use ps_world::{Duplicate, Edit, Name, Seq};
use std::alloc::{AllocError, Global};

/// Why a line is no command. Places count bytes from the line's beginning.
#[derive(Clone, Copy, PartialEq, Eq, Debug)]
pub enum LineCause {
    /// The word here has no class.
    Lex { at: usize },
    /// The word here begins as a number and is none.
    Number { at: usize },
    /// The leading words begin no form.
    Command,
    /// The word here doesn't fit, or more is wanted at the line's end.
    Shape { at: usize },
    /// The file to read stands in too many others.
    Nest,
}

/// What a line asks for.
#[derive(Clone, Copy, PartialEq, Eq, Debug)]
pub enum Query {
    /// The names of the types.
    ModelTypes,
    /// The declarations of the predicates.
    ModelPredicates,
    /// The declarations of the functions.
    ModelFunctions,
    /// The names of the actions.
    ModelActions,
    /// One predicate's declaration.
    ModelPredicate(Name),
    /// One action.
    ModelAction(Name),
    /// The canonical text of the domain.
    Domain,
    /// The instances with their types.
    ProblemInstances,
    /// The facts.
    ProblemPredicates,
    /// The values of functions.
    ProblemFunctions,
    /// The goal.
    ProblemGoal,
    /// A plan that reaches the goal.
    Plan,
    /// The tree of the last run's plan.
    Tree,
}

/// What a line of the terminal says.
#[derive(PartialEq, Eq, Drop)]
pub enum Command {
    Edit(Edit),
    Ask(Query),
    /// A run for the goal.
    Run,
    /// A run of one act.
    RunAction(Act),
    /// A run of the plan in a file, whose text gives these steps or has this fault.
    RunPlan(Result<Seq<PlanStep>, PlanTextRefusal>),
    /// Nothing more is read.
    Quit,
}

/// A line of the terminal: a command, or why it is none.
#[derive(PartialEq, Eq, Drop)]
pub enum Line {
    Good(Command),
    Bad(LineCause),
}

impl Duplicate for Command {
    fn copy(&self, alloc: Global) -> Result<Self, AllocError> {
        Ok(match self {
            Command::Edit(edit) => Command::Edit(edit.copy(alloc)?),
            Command::Ask(query) => Command::Ask(*query),
            Command::Run => Command::Run,
            Command::RunAction(act) => Command::RunAction(*act),
            Command::RunPlan(Ok(steps)) => Command::RunPlan(Ok(steps.copy(alloc)?)),
            Command::RunPlan(Err(why)) => Command::RunPlan(Err(*why)),
            Command::Quit => Command::Quit,
        })
    }
}

impl Duplicate for Line {
    fn copy(&self, alloc: Global) -> Result<Self, AllocError> {
        Ok(match self {
            Line::Good(command) => Line::Good(command.copy(alloc)?),
            Line::Bad(cause) => Line::Bad(*cause),
        })
    }
}

/// All that a session is made of.
#[derive(PartialEq, Eq, Drop)]
pub struct Input {
    /// What the session looks up in its domain. Contracts see the domain.
    pub domain: Expert,
    /// The members, in the order of the words.
    pub members: Seq<Member>,
    /// The command lines of the script, in order. What stands after a `quit` counts for nothing.
    pub lines: Seq<Line>,
    /// How many states a solver may look at before it gives up.
    pub budget: u32,
    /// How many times a run may be planned anew.
    pub replans: u8,
}

impl Duplicate for Input {
    fn copy(&self, alloc: Global) -> Result<Self, AllocError> {
        Ok(Input {
            domain: self.domain.copy(alloc)?,
            members: self.members.copy(alloc)?,
            lines: self.lines.copy(alloc)?,
            budget: self.budget,
            replans: self.replans,
        })
    }
}
