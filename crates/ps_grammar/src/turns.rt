//! What most marks make of what is wanted. These turns are taken in place: a rule's symbols would be moved about for each mark.
ghost use Rattle.std.specs.Prelude.{◌≡◌, ◌≤◌, ◌+◌, Some, IfSome};
ghost use Rattle.ps_grammar.specs.Symbols.{weight, level};
ghost use Rattle.ps_grammar.specs.Rules.{step};
ghost use Rattle.ps_grammar.specs.Turns.{turned};
ghost use Rattle.ps_grammar.specs.declared.symbols.Symbol.TheVariants.{InCondition, InEffect, InValue, InGoal};
ghost use Rattle.ps_grammar.specs.declared.symbols.ValuePart.TheVariants as value;

use super::marks::Mark;
use super::symbols::{ConditionPart, EffectPart, GoalPart, Reach, Symbol, ValuePart};

/// What the first symbol wanted becomes at a mark.
#[derive(Clone, Copy)]
pub enum Turn {
    /// Nothing: all that it stands for is there.
    Ends,
    /// Itself: its list goes on.
    GoesOn,
    /// The terms of a fact, after its name.
    Terms,
    /// At most so many terms of a fact of a goal.
    Names(u8),
    /// The head of a condition.
    ConditionHead,
    /// The head of an effect.
    EffectHead,
    /// The head of a condition with a time, and then its list.
    TimedCondition,
    /// The head of an effect with a time, and then its list.
    TimedEffect,
    /// A fact's name and terms.
    Atom,
    /// `start` or `end`, and the condition that holds then.
    ConditionAt,
    /// `all`, and the condition that holds so long.
    ConditionOver,
    /// `start` or `end`, and the effect that is made then.
    EffectAt,
    /// What its rule says.
    ByRule,
}

/// The turn of the symbol at the mark.
pub fn turn_of(symbol: Symbol, mark: Mark) -> Turn
    ensures turned { IfSome (turned result symbol) (λ new. step symbol mark ≡ Some new) }
    ensures few { IfSome (turned result symbol) (λ new. level new ≤ weight symbol + 1) }
{
    match symbol {
        Symbol::The(wanted) if mark == wanted => Turn::Ends,
        Symbol::AnyName if mark == Mark::Name => Turn::Ends,
        Symbol::InValue(ValuePart::Terms) => terms_turn(mark),
        Symbol::InCondition(part) => condition_turn(part, mark),
        Symbol::InEffect(part) => effect_turn(part, mark),
        Symbol::InGoal(part) => goal_turn(part, mark),
        _ => Turn::ByRule,
    }
}

fn terms_turn(mark: Mark) -> Turn
    ensures turned { IfSome (turned result (InValue value.Terms))
        (λ new. step (InValue value.Terms) mark ≡ Some new) }
    ensures few { IfSome (turned result (InValue value.Terms)) (λ new. level new ≤ 2) }
{
    match mark {
        Mark::Variable | Mark::Name => Turn::GoesOn,
        Mark::Close => Turn::Ends,
        _ => Turn::ByRule,
    }
}

fn condition_turn(part: ConditionPart, mark: Mark) -> Turn
    ensures turned { IfSome (turned result (InCondition part)) (λ new. step (InCondition part) mark ≡ Some new) }
    ensures few { IfSome (turned result (InCondition part)) (λ new. level new ≤ weight (InCondition part) + 1) }
{
    match (part, mark) {
        (ConditionPart::TimedList, Mark::Open) => Turn::TimedCondition,
        (ConditionPart::TimedHead, Mark::At) => Turn::ConditionAt,
        (ConditionPart::TimedHead, Mark::Over) => Turn::ConditionOver,
        (ConditionPart::Condition, Mark::Open) => Turn::ConditionHead,
        (ConditionPart::Head, Mark::Name) => Turn::Terms,
        (ConditionPart::TimedList | ConditionPart::Conditions, Mark::Close) => Turn::Ends,
        _ => Turn::ByRule,
    }
}

fn effect_turn(part: EffectPart, mark: Mark) -> Turn
    ensures turned { IfSome (turned result (InEffect part)) (λ new. step (InEffect part) mark ≡ Some new) }
    ensures few { IfSome (turned result (InEffect part)) (λ new. level new ≤ weight (InEffect part) + 1) }
{
    match (part, mark) {
        (EffectPart::TimedList, Mark::Open) => Turn::TimedEffect,
        (EffectPart::TimedHead, Mark::At) => Turn::EffectAt,
        (EffectPart::StartOrEnd, Mark::Start | Mark::End) => Turn::Ends,
        (EffectPart::Effect(Reach::Spread), Mark::Open) => Turn::EffectHead,
        (EffectPart::Head(_), Mark::Name) => Turn::Terms,
        (EffectPart::TimedList, Mark::Close) => Turn::Ends,
        _ => Turn::ByRule,
    }
}

fn goal_turn(part: GoalPart, mark: Mark) -> Turn
    ensures turned { IfSome (turned result (InGoal part)) (λ new. step (InGoal part) mark ≡ Some new) }
    ensures few { IfSome (turned result (InGoal part)) (λ new. level new ≤ weight (InGoal part) + 1) }
{
    match (part, mark) {
        (GoalPart::Atom, Mark::Open) => Turn::Atom,
        (GoalPart::Names(most), Mark::Name) if most > 0 => Turn::Names(most - 1),
        (GoalPart::Names(_), Mark::Close) => Turn::Ends,
        _ => Turn::ByRule,
    }
}
