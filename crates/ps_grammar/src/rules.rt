//! The grammar of a domain's text and of goals as a table: what a symbol leads to at a mark.
ghost use Rattle.std.specs.Prelude.{◌≡◌, ◌≤◌, ◌+◌, Some, None, IfSome, option_map, if◌then◌else◌};
ghost use Rattle.ps_grammar.specs.Symbols.{weight, level, symbols};
ghost use Rattle.ps_grammar.specs.Rules.{step, text_rule, section_rule, list_rule, action_rule, condition_rule, condition_head_rule, effect_rule, effect_head_rule, body_head_rule, one_effect_rule, lone_terms_rule, value_rule, goal_rule, goal_head_rule, goal_value_rule, operand_rule, name_rule, once};
ghost use Rattle.ps_grammar.specs.declared.symbols.Symbol.TheVariants.{InText, InList, InAction, InCondition, InEffect, InValue, InGoal};
ghost use Rattle.ps_grammar.specs.declared.symbols.ListPart.TheVariants as list;
ghost use Rattle.ps_grammar.specs.declared.symbols.ValuePart.TheVariants as value;

use super::marks::Mark;
use super::symbols::Symbol::{
    AnyName, InAction, InCondition, InEffect, InGoal, InList, InText, InValue, The,
};
use super::symbols::Then::{Nothing, One, Three, Two};
use super::symbols::{
    ActionPart, ConditionPart, EffectPart, GoalPart, ListPart, Reach, Seen, Symbol, TextPart, Then,
    ValuePart,
};

/// How many terms a fact of a goal and a function's value have at most.
pub const MOST_NAMES: u8 = 6;

/// What the symbol leads to at the mark, if the mark fits.
pub fn step(symbol: Symbol, mark: Mark) -> Option<Then>
    ensures rule { option_map symbols result ≡ step symbol mark }
    ensures few { IfSome result (λ next. level (symbols next) ≤ weight symbol + 1) }
{
    match symbol {
        The(wanted) => at(mark == wanted, Nothing),
        AnyName => at(mark.is_name(), Nothing),
        InText(part) => text_rule(part, mark),
        InList(part) => list_rule(part, mark),
        InAction(part) => action_rule(part, mark),
        InCondition(part) => condition_rule(part, mark),
        InEffect(part) => effect_rule(part, mark),
        InValue(part) => value_rule(part, mark),
        InGoal(part) => goal_rule(part, mark),
    }
}

fn at(fits: bool, next: Then) -> Option<Then>
    ensures { result ≡ (if fits then Some next else None) }
{
    if fits { Some(next) } else { None }
}

fn text_rule(part: TextPart, mark: Mark) -> Option<Then>
    ensures rule { option_map symbols result ≡ text_rule part mark }
    ensures few { IfSome result (λ next. level (symbols next) ≤ weight (InText part) + 1) }
{
    match (part, mark) {
        (TextPart::Whole, Mark::Open) => Some(Three(
            The(Mark::Define),
            InText(TextPart::Title),
            InText(TextPart::Sections(Seen::none())),
        )),
        (TextPart::Title, Mark::Open) => Some(Three(
            InText(TextPart::TitleWord),
            AnyName,
            The(Mark::Close),
        )),
        (TextPart::TitleWord, Mark::Domain) => Some(Nothing),
        (TextPart::Sections(seen), Mark::Open) => Some(One(InText(TextPart::SectionHead(seen)))),
        (TextPart::Sections(_), Mark::Close) => Some(Nothing),
        (TextPart::SectionHead(seen), _) => section_rule(seen, mark),
        _ => None,
    }
}

fn section_rule(seen: Seen, mark: Mark) -> Option<Then>
    ensures rule { option_map symbols result ≡ section_rule seen mark }
    ensures few { IfSome result (λ next. level (symbols next) ≤ 3) }
{
    match mark {
        Mark::Requirements => once(
            seen.requirements,
            ListPart::Keywords,
            seen.with_requirements(),
        ),
        Mark::Types => once(seen.types, ListPart::Names, seen.with_types()),
        Mark::Constants => once(seen.constants, ListPart::Names, seen.with_constants()),
        Mark::Predicates => once(
            seen.predicates,
            ListPart::Predicates,
            seen.with_predicates(),
        ),
        Mark::Functions => once(seen.functions, ListPart::Functions, seen.with_functions()),
        Mark::DurativeAction => Some(Three(
            AnyName,
            InAction(ActionPart::AfterName),
            InText(TextPart::Sections(seen)),
        )),
        _ => None,
    }
}

/// The list of a section that stands at most once, and the sections after it.
fn once(before: bool, part: ListPart, seen: Seen) -> Option<Then>
    requires { weight (InList part) ≤ 1 }
    ensures rule { option_map symbols result ≡ once before part seen }
    ensures few { IfSome result (λ next. level (symbols next) ≤ 3) }
{
    if before {
        return None;
    }
    Some(Two(InList(part), InText(TextPart::Sections(seen))))
}

fn list_rule(part: ListPart, mark: Mark) -> Option<Then>
    ensures rule { option_map symbols result ≡ list_rule part mark }
    ensures few { IfSome result (λ next. level (symbols next) ≤ weight (InList part) + 1) }
{
    match part {
        ListPart::Keywords => keywords_rule(mark),
        ListPart::Names => names_rule(mark),
        ListPart::NameRun => name_run_rule(mark),
        ListPart::Variables => variables_rule(mark),
        ListPart::VariableRun => variable_run_rule(mark),
        ListPart::TypeName => at(mark.is_name(), Nothing),
        ListPart::Predicates => predicates_rule(mark),
        ListPart::PredicateHead => at(mark.is_predicate_name(), Nothing),
        ListPart::Functions => functions_rule(mark),
        ListPart::FunctionRun => function_run_rule(mark),
        ListPart::FunctionType => at(mark == Mark::NumberWord, Nothing),
    }
}

fn keywords_rule(mark: Mark) -> Option<Then>
    ensures rule { option_map symbols result ≡ list_rule list.Keywords mark }
    ensures few { IfSome result (λ next. level (symbols next) ≤ 2) }
{
    match mark {
        Mark::Close => Some(Nothing),
        _ => at(mark.is_keyword(), One(InList(ListPart::Keywords))),
    }
}

fn names_rule(mark: Mark) -> Option<Then>
    ensures rule { option_map symbols result ≡ list_rule list.Names mark }
    ensures few { IfSome result (λ next. level (symbols next) ≤ 2) }
{
    match mark {
        Mark::Close => Some(Nothing),
        _ => at(mark.is_name(), One(InList(ListPart::NameRun))),
    }
}

fn name_run_rule(mark: Mark) -> Option<Then>
    ensures rule { option_map symbols result ≡ list_rule list.NameRun mark }
    ensures few { IfSome result (λ next. level (symbols next) ≤ 2) }
{
    match mark {
        Mark::Close => Some(Nothing),
        Mark::Minus => Some(Two(InList(ListPart::TypeName), InList(ListPart::Names))),
        _ => at(mark.is_name(), One(InList(ListPart::NameRun))),
    }
}

fn variables_rule(mark: Mark) -> Option<Then>
    ensures rule { option_map symbols result ≡ list_rule list.Variables mark }
    ensures few { IfSome result (λ next. level (symbols next) ≤ 2) }
{
    match mark {
        Mark::Close => Some(Nothing),
        Mark::Variable => Some(One(InList(ListPart::VariableRun))),
        _ => None,
    }
}

fn variable_run_rule(mark: Mark) -> Option<Then>
    ensures rule { option_map symbols result ≡ list_rule list.VariableRun mark }
    ensures few { IfSome result (λ next. level (symbols next) ≤ 2) }
{
    match mark {
        Mark::Close => Some(Nothing),
        Mark::Variable => Some(One(InList(ListPart::VariableRun))),
        Mark::Minus => Some(Two(InList(ListPart::TypeName), InList(ListPart::Variables))),
        _ => None,
    }
}

fn predicates_rule(mark: Mark) -> Option<Then>
    ensures rule { option_map symbols result ≡ list_rule list.Predicates mark }
    ensures few { IfSome result (λ next. level (symbols next) ≤ 2) }
{
    match mark {
        Mark::Close => Some(Nothing),
        Mark::Open => Some(Three(
            InList(ListPart::PredicateHead),
            InList(ListPart::Variables),
            InList(ListPart::Predicates),
        )),
        _ => None,
    }
}

fn functions_rule(mark: Mark) -> Option<Then>
    ensures rule { option_map symbols result ≡ list_rule list.Functions mark }
    ensures few { IfSome result (λ next. level (symbols next) ≤ 2) }
{
    match mark {
        Mark::Close => Some(Nothing),
        Mark::Open => Some(Three(
            AnyName,
            InList(ListPart::Variables),
            InList(ListPart::FunctionRun),
        )),
        _ => None,
    }
}

fn function_run_rule(mark: Mark) -> Option<Then>
    ensures rule { option_map symbols result ≡ list_rule list.FunctionRun mark }
    ensures few { IfSome result (λ next. level (symbols next) ≤ 2) }
{
    match mark {
        Mark::Minus => Some(Two(InList(ListPart::FunctionType), InList(ListPart::Functions))),
        _ => functions_rule(mark),
    }
}

fn action_rule(part: ActionPart, mark: Mark) -> Option<Then>
    ensures rule { option_map symbols result ≡ action_rule part mark }
    ensures few { IfSome result (λ next. level (symbols next) ≤ weight (InAction part) + 1) }
{
    let end = The(Mark::Close);
    let condition = InCondition(ConditionPart::Form);
    let effect = InEffect(EffectPart::Form);
    let duration = InAction(ActionPart::Duration);
    let after_condition = InAction(ActionPart::AfterCondition);
    match (part, mark) {
        (ActionPart::AfterName, Mark::Parameters) => Some(Two(
            InAction(ActionPart::Parameters),
            InAction(ActionPart::AfterParameters),
        )),
        (ActionPart::Parameters, Mark::Open) => Some(One(InList(ListPart::Variables))),
        (ActionPart::AfterParameters, Mark::DurationKey) => {
            Some(Two(duration, InAction(ActionPart::AfterDuration)))
        }
        (ActionPart::Duration, Mark::Open) => Some(One(InAction(ActionPart::DurationHead))),
        (ActionPart::DurationHead, Mark::Equal) => {
            Some(Three(The(Mark::Duration), InValue(ValuePart::Value), end))
        }
        (ActionPart::AfterDuration, Mark::Close) => Some(Nothing),
        (ActionPart::AfterDuration, Mark::ConditionKey) => Some(Two(condition, after_condition)),
        (ActionPart::AfterDuration, Mark::EffectKey) => Some(Two(effect, end)),
        (ActionPart::AfterCondition, Mark::Close) => Some(Nothing),
        (ActionPart::AfterCondition, Mark::EffectKey) => Some(Two(effect, end)),
        _ => None,
    }
}

fn condition_rule(part: ConditionPart, mark: Mark) -> Option<Then>
    ensures rule { option_map symbols result ≡ condition_rule part mark }
    ensures few { IfSome result (λ next. level (symbols next) ≤ weight (InCondition part) + 1) }
{
    let end = The(Mark::Close);
    let form_end = InEffect(EffectPart::FormEnd);
    let time = InEffect(EffectPart::StartOrEnd);
    let condition = InCondition(ConditionPart::Condition);
    let head = InCondition(ConditionPart::Head);
    let timed_head = InCondition(ConditionPart::TimedHead);
    let timed_list = InCondition(ConditionPart::TimedList);
    match (part, mark) {
        (ConditionPart::Form, Mark::Open) => Some(One(InCondition(ConditionPart::FormHead))),
        (ConditionPart::FormHead, Mark::Close) => Some(Nothing),
        (ConditionPart::FormHead, Mark::And) => Some(One(timed_list)),
        (ConditionPart::FormHead, Mark::At) => Some(Three(time, condition, form_end)),
        (ConditionPart::FormHead, Mark::Over) => Some(Three(The(Mark::All), condition, form_end)),
        (ConditionPart::TimedList, Mark::Close) => Some(Nothing),
        (ConditionPart::TimedList, Mark::Open) => Some(Two(timed_head, timed_list)),
        (ConditionPart::TimedHead, Mark::Close) => Some(Nothing),
        (ConditionPart::TimedHead, Mark::And) => Some(One(timed_list)),
        (ConditionPart::TimedHead, Mark::At) => Some(Three(time, condition, end)),
        (ConditionPart::TimedHead, Mark::Over) => Some(Three(The(Mark::All), condition, end)),
        (ConditionPart::Condition, Mark::Open) => Some(One(head)),
        (ConditionPart::Conditions, Mark::Close) => Some(Nothing),
        (ConditionPart::Conditions, Mark::Open) => Some(Two(head, InCondition(part))),
        (ConditionPart::Head, _) => condition_head_rule(mark),
        _ => None,
    }
}

fn condition_head_rule(mark: Mark) -> Option<Then>
    ensures rule { option_map symbols result ≡ condition_head_rule mark }
    ensures few { IfSome result (λ next. level (symbols next) ≤ 2) }
{
    let value = InValue(ValuePart::Value);
    let condition = InCondition(ConditionPart::Condition);
    let end = The(Mark::Close);
    match mark {
        Mark::And | Mark::Or => Some(One(InCondition(ConditionPart::Conditions))),
        Mark::Not => Some(Two(condition, end)),
        Mark::Imply => Some(Three(condition, condition, end)),
        Mark::Exists | Mark::Forall => {
            Some(Three(InAction(ActionPart::Parameters), condition, end))
        }
        Mark::Equal | Mark::Less | Mark::Greater | Mark::LessEqual | Mark::GreaterEqual => {
            Some(Three(value, value, end))
        }
        _ => at(mark.is_fact_name(), One(InValue(ValuePart::Terms))),
    }
}

fn effect_rule(part: EffectPart, mark: Mark) -> Option<Then>
    ensures rule { option_map symbols result ≡ effect_rule part mark }
    ensures few { IfSome result (λ next. level (symbols next) ≤ weight (InEffect part) + 1) }
{
    let time = InEffect(EffectPart::StartOrEnd);
    let effect = InEffect(EffectPart::Effect(Reach::Spread));
    let timed_head = InEffect(EffectPart::TimedHead);
    let timed_list = InEffect(EffectPart::TimedList);
    match (part, mark) {
        (EffectPart::Form, Mark::Open) => Some(One(InEffect(EffectPart::FormHead))),
        (EffectPart::FormHead, Mark::Close) => Some(Nothing),
        (EffectPart::FormHead, Mark::And) => Some(One(timed_list)),
        (EffectPart::FormHead, Mark::At) => {
            Some(Three(time, effect, InEffect(EffectPart::FormEnd)))
        }
        (EffectPart::TimedList, Mark::Close) => Some(Nothing),
        (EffectPart::TimedList, Mark::Open) => Some(Two(timed_head, timed_list)),
        (EffectPart::TimedHead, Mark::Close) => Some(Nothing),
        (EffectPart::TimedHead, Mark::And) => Some(One(timed_list)),
        (EffectPart::TimedHead, Mark::At) => Some(Three(time, effect, The(Mark::Close))),
        (EffectPart::Effect(reach), Mark::Open) => Some(One(InEffect(EffectPart::Head(reach)))),
        (EffectPart::Effects(_), Mark::Close) => Some(Nothing),
        (EffectPart::Effects(reach), Mark::Open) => {
            Some(Two(InEffect(EffectPart::Head(reach)), InEffect(part)))
        }
        (EffectPart::Head(reach), _) => effect_head_rule(reach, mark),
        (EffectPart::Body(reach), Mark::Open) => Some(One(InEffect(EffectPart::BodyHead(reach)))),
        (EffectPart::BodyHead(reach), _) => body_head_rule(reach, mark),
        (EffectPart::LoneTerms, _) => lone_terms_rule(mark),
        (EffectPart::StartOrEnd, Mark::Start | Mark::End) => Some(Nothing),
        (EffectPart::FormEnd, Mark::Close) => Some(Nothing),
        _ => None,
    }
}

fn effect_head_rule(reach: Reach, mark: Mark) -> Option<Then>
    ensures rule { option_map symbols result ≡ effect_head_rule reach mark }
    ensures few { IfSome result (λ next. level (symbols next) ≤ 2) }
{
    match mark {
        Mark::And => Some(One(InEffect(EffectPart::Effects(reach)))),
        _ => one_effect_rule(reach, InValue(ValuePart::Terms), The(Mark::Close), mark),
    }
}

/// What follows the first parenthesis in a `forall` or a `when`.
fn body_head_rule(reach: Reach, mark: Mark) -> Option<Then>
    ensures rule { option_map symbols result ≡ body_head_rule reach mark }
    ensures few { IfSome result (λ next. level (symbols next) ≤ 2) }
{
    match mark {
        Mark::And => Some(One(InEffect(EffectPart::Effects(reach)))),
        _ => {
            let terms = InEffect(EffectPart::LoneTerms);
            one_effect_rule(reach, terms, InEffect(EffectPart::FormEnd), mark)
        }
    }
}

/// The head of an effect but `and`; `terms` are its terms and `end` is the parenthesis that ends it.
fn one_effect_rule(reach: Reach, terms: Symbol, end: Symbol, mark: Mark) -> Option<Then>
    requires terms { weight terms ≤ 2 }
    requires end { weight end ≤ 2 }
    ensures rule { option_map symbols result ≡ one_effect_rule reach terms end mark }
    ensures few { IfSome result (λ next. level (symbols next) ≤ 2) }
{
    let atom = InValue(ValuePart::Atom);
    match mark {
        Mark::Not => Some(Two(atom, end)),
        Mark::When => {
            let body = InEffect(EffectPart::Body(Reach::Plain));
            at(
                reach.has_when(),
                Three(InCondition(ConditionPart::Condition), body, end),
            )
        }
        Mark::Forall => {
            let body = InEffect(EffectPart::Body(Reach::Guarded));
            at(
                reach.has_forall(),
                Three(InAction(ActionPart::Parameters), body, end),
            )
        }
        Mark::Assign | Mark::Increase | Mark::Decrease | Mark::ScaleUp | Mark::ScaleDown => {
            Some(Three(atom, InValue(ValuePart::Value), end))
        }
        _ => at(mark.is_predicate_name(), One(terms)),
    }
}

/// Terms of a fact alone in a `forall` or a `when`.
fn lone_terms_rule(mark: Mark) -> Option<Then>
    ensures rule { option_map symbols result ≡ lone_terms_rule mark }
    ensures few { IfSome result (λ next. level (symbols next) ≤ 2) }
{
    match mark {
        Mark::Close => Some(Nothing),
        _ => at(mark.is_term(), One(InEffect(EffectPart::LoneTerms))),
    }
}

fn value_rule(part: ValuePart, mark: Mark) -> Option<Then>
    ensures rule { option_map symbols result ≡ value_rule part mark }
    ensures few { IfSome result (λ next. level (symbols next) ≤ weight (InValue part) + 1) }
{
    match part {
        ValuePart::Atom => atom_rule(mark),
        ValuePart::Terms => terms_rule(mark),
        ValuePart::Value => whole_value_rule(mark),
        ValuePart::Head => value_head_rule(mark),
        ValuePart::ValueOrEnd => value_or_end_rule(mark),
    }
}

fn atom_rule(mark: Mark) -> Option<Then>
    ensures rule { option_map symbols result ≡ value_rule value.Atom mark }
    ensures few { IfSome result (λ next. level (symbols next) ≤ 1) }
{
    match mark {
        Mark::Open => Some(Two(AnyName, InValue(ValuePart::Terms))),
        _ => None,
    }
}

fn terms_rule(mark: Mark) -> Option<Then>
    ensures rule { option_map symbols result ≡ value_rule value.Terms mark }
    ensures few { IfSome result (λ next. level (symbols next) ≤ 2) }
{
    let terms = One(InValue(ValuePart::Terms));
    match mark {
        Mark::Close => Some(Nothing),
        Mark::Variable => Some(terms),
        _ => at(mark.is_name(), terms),
    }
}

fn whole_value_rule(mark: Mark) -> Option<Then>
    ensures rule { option_map symbols result ≡ value_rule value.Value mark }
    ensures few { IfSome result (λ next. level (symbols next) ≤ 1) }
{
    match mark {
        Mark::Number | Mark::Variable => Some(Nothing),
        Mark::Open => Some(One(InValue(ValuePart::Head))),
        _ => at(mark.is_name(), Nothing),
    }
}

fn value_head_rule(mark: Mark) -> Option<Then>
    ensures rule { option_map symbols result ≡ value_rule value.Head mark }
    ensures few { IfSome result (λ next. level (symbols next) ≤ 2) }
{
    let value = InValue(ValuePart::Value);
    match mark {
        Mark::Minus => Some(Two(value, InValue(ValuePart::ValueOrEnd))),
        Mark::Plus | Mark::Times | Mark::Divide => Some(Three(value, value, The(Mark::Close))),
        _ => at(mark.is_name(), One(InValue(ValuePart::Terms))),
    }
}

fn value_or_end_rule(mark: Mark) -> Option<Then>
    ensures rule { option_map symbols result ≡ value_rule value.ValueOrEnd mark }
    ensures few { IfSome result (λ next. level (symbols next) ≤ 2) }
{
    let end = The(Mark::Close);
    match mark {
        Mark::Close => Some(Nothing),
        Mark::Number | Mark::Variable => Some(One(end)),
        Mark::Open => Some(Two(InValue(ValuePart::Head), end)),
        _ => at(mark.is_name(), One(end)),
    }
}

fn goal_rule(part: GoalPart, mark: Mark) -> Option<Then>
    ensures rule { option_map symbols result ≡ goal_rule part mark }
    ensures few { IfSome result (λ next. level (symbols next) ≤ weight (InGoal part) + 1) }
{
    let value_head = InGoal(GoalPart::ValueHead);
    let names = InGoal(GoalPart::Names(MOST_NAMES));
    let end = The(Mark::Close);
    match (part, mark) {
        (GoalPart::Condition, Mark::Open) => Some(One(InGoal(GoalPart::Head))),
        (GoalPart::Head, _) => goal_head_rule(mark),
        (GoalPart::Conditions, Mark::Close) => Some(Nothing),
        (GoalPart::Conditions, Mark::Open) => Some(Two(InGoal(GoalPart::Head), InGoal(part))),
        (GoalPart::FirstOperand, _) => operand_rule(mark),
        (GoalPart::Atom, Mark::Open) => Some(Two(AnyName, names)),
        (GoalPart::Term, _) => at(mark.is_term(), Nothing),
        (GoalPart::Names(_), Mark::Close) => Some(Nothing),
        (GoalPart::Names(most), _) => name_rule(most, mark),
        (GoalPart::Value, Mark::Number) => Some(Nothing),
        (GoalPart::Value, Mark::Open) => Some(One(value_head)),
        (GoalPart::ValueHead, _) => goal_value_rule(mark),
        (GoalPart::ValueOrEnd, Mark::Close) => Some(Nothing),
        (GoalPart::ValueOrEnd, Mark::Number) => Some(One(end)),
        (GoalPart::ValueOrEnd, Mark::Open) => Some(Two(value_head, end)),
        _ => None,
    }
}

fn goal_head_rule(mark: Mark) -> Option<Then>
    ensures rule { option_map symbols result ≡ goal_head_rule mark }
    ensures few { IfSome result (λ next. level (symbols next) ≤ 2) }
{
    let value = InGoal(GoalPart::Value);
    let condition = InGoal(GoalPart::Condition);
    let names = InGoal(GoalPart::Names(MOST_NAMES));
    let end = The(Mark::Close);
    match mark {
        Mark::And | Mark::Or => Some(One(InGoal(GoalPart::Conditions))),
        Mark::Not => Some(Two(condition, end)),
        Mark::Imply => Some(Three(condition, condition, end)),
        Mark::Exists | Mark::Forall => {
            Some(Three(InAction(ActionPart::Parameters), condition, end))
        }
        Mark::Equal => Some(One(InGoal(GoalPart::FirstOperand))),
        Mark::Less | Mark::Greater | Mark::LessEqual | Mark::GreaterEqual => {
            Some(Three(value, value, end))
        }
        _ => at(mark.is_goal_name(), One(names)),
    }
}

/// What follows `=`: numbers are compared where a number or a parenthesis stands first, and terms otherwise.
fn operand_rule(mark: Mark) -> Option<Then>
    ensures rule { option_map symbols result ≡ operand_rule mark }
    ensures few { IfSome result (λ next. level (symbols next) ≤ 2) }
{
    let value = InGoal(GoalPart::Value);
    let end = The(Mark::Close);
    match mark {
        Mark::Number => Some(Two(value, end)),
        Mark::Open => Some(Three(InGoal(GoalPart::ValueHead), value, end)),
        _ => at(mark.is_term(), Two(InGoal(GoalPart::Term), end)),
    }
}

fn goal_value_rule(mark: Mark) -> Option<Then>
    ensures rule { option_map symbols result ≡ goal_value_rule mark }
    ensures few { IfSome result (λ next. level (symbols next) ≤ 2) }
{
    let value = InGoal(GoalPart::Value);
    match mark {
        Mark::Minus => Some(Two(value, InGoal(GoalPart::ValueOrEnd))),
        Mark::Plus | Mark::Times | Mark::Divide => Some(Three(value, value, The(Mark::Close))),
        _ => at(mark.is_name(), One(InGoal(GoalPart::Names(MOST_NAMES)))),
    }
}

/// A term, where so many may stand, and the terms that may follow it.
fn name_rule(most: u8, mark: Mark) -> Option<Then>
    ensures rule { option_map symbols result ≡ name_rule most mark }
    ensures few { IfSome result (λ next. level (symbols next) ≤ 2) }
{
    if most == 0 {
        return None;
    }
    at(mark.is_term(), One(InGoal(GoalPart::Names(most - 1))))
}
