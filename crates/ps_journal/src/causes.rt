//! Why things are refused.
ghost use Rattle.std.specs.Prelude.{◌≡◌, ◌++◌, [], OnOk};
ghost use Rattle.std.specs.Fmt.{decimal};
ghost use Rattle.ps_world.specs.Texts.{edit_refusal_text};
ghost use Rattle.ps_world.specs.declared.edits.EditRefusal.TheVariants.{Arity};
ghost use Rattle.ps_machine.specs.Texts.{line_cause_text, ground_text, effect_text, plan_cause_text, plan_text_cause, refusal_text};

use super::printed::{Printed, push_after, push_both};
use ps_action::{EffectRefusal, GroundRefusal, PlanRefusal, PlanTextRefusal};
use ps_machine::{LineCause, Refusal};
use ps_text::Names;
use ps_world::EditRefusal;
use std::alloc::AllocError;

impl Printed for LineCause {
    ghost text = { λ names cause. line_cause_text cause };

    fn print(&self, names: &Names, out: &mut Vec<u8>) -> Result<(), AllocError> {
        match self {
            LineCause::Lex { at } => push_after(b"Lex ", at, names, out),
            LineCause::Number { at } => push_after(b"Number ", at, names, out),
            LineCause::Command => out.extend_from_slice(b"Command"),
            LineCause::Shape { at } => push_after(b"Shape ", at, names, out),
            LineCause::Nest => out.extend_from_slice(b"Nest"),
        }
    }
}

/// Adds that the number of arguments isn't that of the parameters.
fn push_arity(want: usize, got: usize, names: &Names, out: &mut Vec<u8>) -> Result<(), AllocError>
    ensures { OnOk result (out.new.items ≡ out.old.items ++ edit_refusal_text [] (Arity want got)) }
{
    push_both(b"Arity ", &want, &got, names, out)
}

impl Printed for EditRefusal {
    ghost text = { edit_refusal_text };

    fn print(&self, names: &Names, out: &mut Vec<u8>) -> Result<(), AllocError> {
        match self {
            EditRefusal::NoType => out.extend_from_slice(b"NoType"),
            EditRefusal::InstanceThere => out.extend_from_slice(b"InstanceThere"),
            EditRefusal::Full => out.extend_from_slice(b"Full"),
            EditRefusal::NoInstance(name) => push_after(b"NoInstance ", name, names, out),
            EditRefusal::Constant => out.extend_from_slice(b"Constant"),
            EditRefusal::NoPredicate => out.extend_from_slice(b"NoPredicate"),
            EditRefusal::Arity { want, got } => push_arity(*want, *got, names, out),
            EditRefusal::WrongType { at } => push_after(b"WrongType ", at, names, out),
            EditRefusal::NoFact => out.extend_from_slice(b"NoFact"),
            EditRefusal::NoFunction => out.extend_from_slice(b"NoFunction"),
            EditRefusal::NoValue => out.extend_from_slice(b"NoValue"),
            EditRefusal::NoGoal => out.extend_from_slice(b"NoGoal"),
        }
    }
}

impl Printed for GroundRefusal {
    ghost text = { ground_text };

    fn print(&self, names: &Names, out: &mut Vec<u8>) -> Result<(), AllocError> {
        match self {
            GroundRefusal::NoAction => out.extend_from_slice(b"NoAction"),
            GroundRefusal::Arity { want, got } => push_arity(*want, *got, names, out),
            GroundRefusal::NoInstance(name) => push_after(b"NoInstance ", name, names, out),
            GroundRefusal::WrongType { at } => push_after(b"WrongType ", at, names, out),
        }
    }
}

impl Printed for EffectRefusal {
    ghost text = { λ names refusal. effect_text refusal };

    fn print(&self, names: &Names, out: &mut Vec<u8>) -> Result<(), AllocError> {
        match self {
            EffectRefusal::Clash { at } => push_after(b"Clash ", at, names, out),
            EffectRefusal::Undefined { at } => push_after(b"Undefined ", at, names, out),
            EffectRefusal::Range { at } => push_after(b"Range ", at, names, out),
        }
    }
}

/// Adds a step's number, and words that say what fails of it.
fn push_step(at: u32, words: &[u8], names: &Names, out: &mut Vec<u8>) -> Result<(), AllocError>
    ensures { OnOk result (out.new.items ≡ out.old.items ++ (decimal at ++ words.now)) }
{
    at.print(names, out)?;
    out.extend_from_slice(words)
}

/// Adds a step's number, words that say what fails of it, and why.
fn push_step_cause<T: Printed>(
    at: u32,
    words: &[u8],
    cause: &T,
    names: &Names,
    out: &mut Vec<u8>,
) -> Result<(), AllocError>
    ensures { OnOk result (out.new.items ≡ out.old.items
        ++ (decimal at ++ (words.now ++ T.text names.now cause.now))) }
{
    at.print(names, out)?;
    push_after(words, cause, names, out)
}

impl Printed for PlanRefusal {
    ghost text = { plan_cause_text };

    fn print(&self, names: &Names, out: &mut Vec<u8>) -> Result<(), AllocError> {
        match self {
            PlanRefusal::NoGoal => out.extend_from_slice(b"NoGoal"),
            PlanRefusal::Ground(at, why) => push_step_cause(*at, b" ", why, names, out),
            PlanRefusal::StartFalse(at) => push_step(*at, b" StartFalse", names, out),
            PlanRefusal::StartEffect(at, why) => {
                push_step_cause(*at, b" StartEffect ", why, names, out)
            }
            PlanRefusal::OverAllFalse(at) => push_step(*at, b" OverAllFalse", names, out),
            PlanRefusal::EndFalse(at) => push_step(*at, b" EndFalse", names, out),
            PlanRefusal::EndEffect(at, why) => {
                push_step_cause(*at, b" EndEffect ", why, names, out)
            }
            PlanRefusal::GoalFalse => out.extend_from_slice(b"GoalFalse"),
        }
    }
}

impl Printed for PlanTextRefusal {
    ghost text = { λ names refusal. plan_text_cause refusal };

    fn print(&self, names: &Names, out: &mut Vec<u8>) -> Result<(), AllocError> {
        match self {
            PlanTextRefusal::Line { n } => push_after(b"Line ", n, names, out),
            PlanTextRefusal::Long { n } => push_after(b"Long ", n, names, out),
        }
    }
}

impl Printed for Refusal {
    ghost text = { refusal_text };

    fn print(&self, names: &Names, out: &mut Vec<u8>) -> Result<(), AllocError> {
        match self {
            Refusal::Line(cause) => cause.print(names, out),
            Refusal::Edit(refusal) => refusal.print(names, out),
            Refusal::Ground(refusal) => refusal.print(names, out),
            Refusal::Plan(refusal) => push_after(b"Plan ", refusal, names, out),
            Refusal::PlanText(refusal) => push_after(b"PlanText ", refusal, names, out),
            Refusal::NoGoal => out.extend_from_slice(b"NoGoal"),
            Refusal::NoPlan => out.extend_from_slice(b"NoPlan"),
            Refusal::Spent(depth) => push_after(b"Spent ", depth, names, out),
            Refusal::TooMany => out.extend_from_slice(b"TooMany"),
            Refusal::NoRun => out.extend_from_slice(b"NoRun"),
            Refusal::NoPredicate => out.extend_from_slice(b"NoPredicate"),
            Refusal::NoAction => out.extend_from_slice(b"NoAction"),
        }
    }
}
