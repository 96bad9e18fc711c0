//! Why a text is no member script.
use ps_machine::LineCause;

/// Why a text is no member script. Lines are counted from 1, with those that say nothing.
#[derive(Clone, Copy, PartialEq, Eq, Debug)]
pub enum ScriptRefusal {
    /// The line is bad, or more is wanted after the last line.
    Line { n: usize, cause: LineCause },
    /// The domain has no action of this name.
    NoAction { n: usize },
    /// There isn't one place for each parameter of the action.
    Arity { n: usize },
    /// The line closes a job whose last unit isn't `finish`.
    NoFinish { n: usize },
    /// A 65th job, or a 1,001st unit of a job or of an observer.
    Limit { n: usize },
}
