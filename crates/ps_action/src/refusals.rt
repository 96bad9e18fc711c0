//! Why effects aren't made, an act isn't grounded, a plan isn't good, or a text is no plan.
ghost use Rattle.std.specs.Prelude.{◌≡◌};

use ps_world::{EditRefusal, Name};

/// Why a list of effects isn't made. Effects are counted from 0.
#[derive(Clone, Copy, PartialEq, Eq, Debug)]
pub enum EffectRefusal {
    /// An earlier effect gives the same function term a value.
    Clash { at: usize },
    /// The new value isn't defined.
    Undefined { at: usize },
    /// The new value is out of range.
    Range { at: usize },
}

/// Why an act isn't grounded. Arguments are counted from 0.
#[derive(Clone, Copy, PartialEq, Eq, Debug)]
pub enum GroundRefusal {
    /// The action isn't declared.
    NoAction,
    /// The number of arguments isn't that of the parameters.
    Arity { want: usize, got: usize },
    /// The argument is no instance.
    NoInstance(Name),
    /// The type of the argument isn't the parameter's or below it.
    WrongType { at: usize },
}

/// A refusal that can say why an argument doesn't suit its parameter.
pub trait Misfit: Copy {
    ghost use Rattle.std.specs.Prelude.{ℕ};
    ghost use Rattle.ps_world.specs.declared.names.Name.{Name as NameView};

    ghost unknown: { NameView → Self };

    ghost unfit: { ℕ → Self };

    /// The argument is no instance.
    fn no_instance(name: Name) -> Self
        ensures { result ≡ unknown name };

    /// The type of the argument at this place isn't the parameter's or below it.
    fn wrong_type(at: usize) -> Self
        ensures { result ≡ unfit at };
}

impl Misfit for GroundRefusal {
    ghost use Rattle.ps_action.specs.declared.refusals.GroundRefusal.TheVariants.{NoInstance, WrongType};

    ghost unknown = { NoInstance };

    ghost unfit = { WrongType };

    fn no_instance(name: Name) -> GroundRefusal {
        GroundRefusal::NoInstance(name)
    }

    fn wrong_type(at: usize) -> GroundRefusal {
        GroundRefusal::WrongType { at }
    }
}

impl Misfit for EditRefusal {
    ghost use Rattle.ps_world.specs.declared.edits.EditRefusal.TheVariants.{NoInstance, WrongType};

    ghost unknown = { NoInstance };

    ghost unfit = { WrongType };

    fn no_instance(name: Name) -> EditRefusal {
        EditRefusal::NoInstance(name)
    }

    fn wrong_type(at: usize) -> EditRefusal {
        EditRefusal::WrongType { at }
    }
}

/// Why a plan isn't good. Steps are counted from 0.
#[derive(Clone, Copy, PartialEq, Eq, Debug)]
pub enum PlanRefusal {
    /// There is no goal.
    NoGoal,
    /// The step's act can't be grounded.
    Ground(u32, GroundRefusal),
    /// The step's start condition is false.
    StartFalse(u32),
    /// The step's start effects can't be made.
    StartEffect(u32, EffectRefusal),
    /// The step's over-all condition is false after its start effects.
    OverAllFalse(u32),
    /// The step's end condition is false after its start effects.
    EndFalse(u32),
    /// The step's end effects can't be made.
    EndEffect(u32, EffectRefusal),
    /// The goal doesn't hold after the last step.
    GoalFalse,
}

/// Why a text is no plan. Lines are counted from 1.
#[derive(Clone, Copy, PartialEq, Eq, Debug)]
pub enum PlanTextRefusal {
    /// The first line that is out of the grammar.
    Line { n: usize },
    /// The line of the 257th step.
    Long { n: usize },
}
