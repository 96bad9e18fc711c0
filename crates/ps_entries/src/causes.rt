//! The cause that words tell.
ghost use Rattle.std.specs.Prelude.{◌≡◌, ◌≤◌};
ghost use Rattle.ps_entries.specs.Causes.{arity_cause, cause_at, effect_at, effect_cause, ground_arity, ground_at, ground_number, later_word_cause, number_cause, one_word_cause, placed_cause, plan_cause_at, plan_cause_by, spent_cause, step_cause, text_cause, whole_plan_cause};

use super::words::{name_at, number_at, short_at};
use ps_action::{EffectRefusal, GroundRefusal, PlanRefusal, PlanTextRefusal};
use ps_machine::{LineCause, Refusal};
use ps_text::Words;
use ps_world::{EditRefusal, Name};

/// `Lex N`, `Number N`, `Shape N` or `WrongType N`.
fn placed_cause(words: &Words, at: usize, n: u64) -> Option<Refusal>
    ensures { result ≡ placed_cause words.now at n }
{
    let place = n as usize;
    if words.reads(at, b"lex") {
        Some(Refusal::Line(LineCause::Lex { at: place }))
    } else if words.reads(at, b"number") {
        Some(Refusal::Line(LineCause::Number { at: place }))
    } else if words.reads(at, b"shape") {
        Some(Refusal::Line(LineCause::Shape { at: place }))
    } else if words.reads(at, b"wrongtype") {
        Some(Refusal::Edit(EditRefusal::WrongType { at: place }))
    } else {
        None
    }
}

/// `Spent N`.
fn spent_cause(words: &Words, at: usize) -> Option<Refusal>
    requires { at ≤ 8 }
    ensures { result ≡ spent_cause words.now at }
{
    if words.reads(at, b"spent") {
        let depth = short_at(words, at + 1)?;
        Some(Refusal::Spent(depth))
    } else {
        None
    }
}

/// `Arity N N`.
fn arity_cause(words: &Words, at: usize, want: u64, got: u64) -> Option<Refusal>
    ensures { result ≡ arity_cause words.now at want got }
{
    if words.reads(at, b"arity") {
        Some(Refusal::Edit(EditRefusal::Arity {
            want: want as usize,
            got: got as usize,
        }))
    } else {
        None
    }
}

/// A cause of one word that a line's or an edit's is.
fn one_word_cause(words: &Words, at: usize) -> Option<Refusal>
    ensures { result ≡ one_word_cause words.now at }
{
    if words.reads(at, b"command") {
        Some(Refusal::Line(LineCause::Command))
    } else if words.reads(at, b"nest") {
        Some(Refusal::Line(LineCause::Nest))
    } else if words.reads(at, b"notype") {
        Some(Refusal::Edit(EditRefusal::NoType))
    } else if words.reads(at, b"instancethere") {
        Some(Refusal::Edit(EditRefusal::InstanceThere))
    } else if words.reads(at, b"full") {
        Some(Refusal::Edit(EditRefusal::Full))
    } else if words.reads(at, b"constant") {
        Some(Refusal::Edit(EditRefusal::Constant))
    } else if words.reads(at, b"nopredicate") {
        Some(Refusal::Edit(EditRefusal::NoPredicate))
    } else {
        None
    }
}

/// Any other cause of one word. Of those that print alike it is the first.
fn later_word_cause(words: &Words, at: usize) -> Option<Refusal>
    ensures { result ≡ later_word_cause words.now at }
{
    if words.reads(at, b"nofact") {
        Some(Refusal::Edit(EditRefusal::NoFact))
    } else if words.reads(at, b"nofunction") {
        Some(Refusal::Edit(EditRefusal::NoFunction))
    } else if words.reads(at, b"novalue") {
        Some(Refusal::Edit(EditRefusal::NoValue))
    } else if words.reads(at, b"nogoal") {
        Some(Refusal::Edit(EditRefusal::NoGoal))
    } else if words.reads(at, b"noaction") {
        Some(Refusal::Ground(GroundRefusal::NoAction))
    } else if words.reads(at, b"noplan") {
        Some(Refusal::NoPlan)
    } else if words.reads(at, b"toomany") {
        Some(Refusal::TooMany)
    } else if words.reads(at, b"norun") {
        Some(Refusal::NoRun)
    } else {
        None
    }
}

/// `Clash N`, `Undefined N` or `Range N`.
fn effect_cause(words: &Words, at: usize, n: u64) -> Option<EffectRefusal>
    ensures { result ≡ effect_cause words.now at n }
{
    let place = n as usize;
    if words.reads(at, b"clash") {
        Some(EffectRefusal::Clash { at: place })
    } else if words.reads(at, b"undefined") {
        Some(EffectRefusal::Undefined { at: place })
    } else if words.reads(at, b"range") {
        Some(EffectRefusal::Range { at: place })
    } else {
        None
    }
}

fn effect_at(words: &Words, at: usize) -> Option<EffectRefusal>
    requires { at ≤ 8 }
    ensures { result ≡ effect_at words.now at }
{
    let n = number_at(words, at + 1)?;
    effect_cause(words, at, n)
}

/// `Arity N N`.
fn ground_arity(words: &Words, at: usize, want: u64) -> Option<GroundRefusal>
    requires { at ≤ 8 }
    ensures { result ≡ ground_arity words.now at want }
{
    let got = number_at(words, at + 2)?;
    Some(GroundRefusal::Arity {
        want: want as usize,
        got: got as usize,
    })
}

/// `Arity N N` or `WrongType N`.
fn ground_number(words: &Words, at: usize, n: u64) -> Option<GroundRefusal>
    requires { at ≤ 8 }
    ensures { result ≡ ground_number words.now at n }
{
    if words.reads(at, b"arity") {
        ground_arity(words, at, n)
    } else if words.reads(at, b"wrongtype") {
        Some(GroundRefusal::WrongType { at: n as usize })
    } else {
        None
    }
}

/// The cause for which an act can't be grounded.
fn ground_at(words: &Words, names: &[Name], at: usize) -> Option<GroundRefusal>
    requires { at ≤ 8 }
    ensures { result ≡ ground_at words.now names.now at }
{
    if words.reads(at, b"noaction") {
        Some(GroundRefusal::NoAction)
    } else if words.reads(at, b"noinstance") {
        Some(GroundRefusal::NoInstance(name_at(names, at + 1)))
    } else {
        let n = number_at(words, at + 1)?;
        ground_number(words, at, n)
    }
}

/// The cause at a step.
fn step_cause(words: &Words, names: &[Name], at: usize, n: u32) -> Option<PlanRefusal>
    requires { at ≤ 7 }
    ensures { result ≡ step_cause words.now names.now at n }
{
    if words.reads(at, b"startfalse") {
        Some(PlanRefusal::StartFalse(n))
    } else if words.reads(at, b"overallfalse") {
        Some(PlanRefusal::OverAllFalse(n))
    } else if words.reads(at, b"endfalse") {
        Some(PlanRefusal::EndFalse(n))
    } else if words.reads(at, b"starteffect") {
        let why = effect_at(words, at + 1)?;
        Some(PlanRefusal::StartEffect(n, why))
    } else if words.reads(at, b"endeffect") {
        let why = effect_at(words, at + 1)?;
        Some(PlanRefusal::EndEffect(n, why))
    } else {
        let why = ground_at(words, names, at)?;
        Some(PlanRefusal::Ground(n, why))
    }
}

/// The cause of no step.
fn whole_plan_cause(words: &Words, at: usize) -> Option<PlanRefusal>
    ensures { result ≡ whole_plan_cause words.now at }
{
    if words.reads(at, b"nogoal") {
        Some(PlanRefusal::NoGoal)
    } else if words.reads(at, b"goalfalse") {
        Some(PlanRefusal::GoalFalse)
    } else {
        None
    }
}

/// The cause of a plan.
fn plan_cause_at(words: &Words, names: &[Name], at: usize) -> Option<PlanRefusal>
    requires { at ≤ 6 }
    ensures { result ≡ plan_cause_at words.now names.now at }
{
    match short_at(words, at) {
        None => whole_plan_cause(words, at),
        Some(n) => step_cause(words, names, at + 1, n),
    }
}

/// `Line N` or `Long N`.
fn text_cause(words: &Words, at: usize, n: u64) -> Option<Refusal>
    ensures { result ≡ text_cause words.now at n }
{
    let n = n as usize;
    if words.reads(at, b"line") {
        Some(Refusal::PlanText(PlanTextRefusal::Line { n }))
    } else if words.reads(at, b"long") {
        Some(Refusal::PlanText(PlanTextRefusal::Long { n }))
    } else {
        None
    }
}

/// A cause with numbers.
fn number_cause(words: &Words, at: usize) -> Option<Refusal>
    requires { at ≤ 8 }
    ensures { result ≡ number_cause words.now at }
{
    if words.reads(at, b"spent") {
        spent_cause(words, at)
    } else if words.reads(at, b"arity") {
        let want = number_at(words, at + 1)?;
        let got = number_at(words, at + 2)?;
        arity_cause(words, at, want, got)
    } else {
        let n = number_at(words, at + 1)?;
        placed_cause(words, at, n)
    }
}

/// The cause that words tell from a place on.
pub fn cause_at(words: &Words, names: &[Name], at: usize) -> Option<Refusal>
    requires { at ≤ 5 }
    ensures { result ≡ cause_at words.now names.now at }
{
    if words.reads(at, b"noinstance") {
        Some(Refusal::Edit(EditRefusal::NoInstance(name_at(names, at + 1))))
    } else if words.reads(at, b"plan") {
        let why = plan_cause_at(words, names, at + 1)?;
        Some(Refusal::Plan(why))
    } else if words.reads(at, b"plantext") {
        let n = number_at(words, at + 2)?;
        text_cause(words, at + 1, n)
    } else {
        one_word_cause(words, at)
            .or(later_word_cause(words, at))
            .or(number_cause(words, at))
    }
}
