//! What may stand at a place of a text, by the grammar.
use super::page::Page;
use ps_grammar::{Mark, ShapeFault, judge};
use ps_lists::mark_of;
use ps_script::Form;
use ps_text::{Token, tokens};
use ps_world::Failure;
use std::alloc::{AllocError, Global};

/// Which grammar a text is to have.
#[derive(Clone, Copy)]
pub enum Grammar {
    Domain,
    Line(Form),
}

/// How a variable is told.
const VARIABLE: &str = "a variable";

/// The words that may stand somewhere, and how each is told.
const CANDIDATES: [(Mark, &str); 46] = [
    (Mark::Open, "'('"),
    (Mark::Close, "')'"),
    (Mark::Name, "a name"),
    (Mark::Variable, VARIABLE),
    (Mark::Number, "a number"),
    (Mark::Minus, "'-'"),
    (Mark::Plus, "'+'"),
    (Mark::Times, "'*'"),
    (Mark::Divide, "'/'"),
    (Mark::Equal, "'='"),
    (Mark::Less, "'<'"),
    (Mark::LessEqual, "'<='"),
    (Mark::Greater, "'>'"),
    (Mark::GreaterEqual, "'>='"),
    (Mark::Duration, "'?duration'"),
    (Mark::Requirements, "':requirements'"),
    (Mark::Types, "':types'"),
    (Mark::Constants, "':constants'"),
    (Mark::Predicates, "':predicates'"),
    (Mark::Functions, "':functions'"),
    (Mark::DurativeAction, "':durative-action'"),
    (Mark::Parameters, "':parameters'"),
    (Mark::DurationKey, "':duration'"),
    (Mark::ConditionKey, "':condition'"),
    (Mark::EffectKey, "':effect'"),
    (Mark::Define, "'define'"),
    (Mark::Domain, "'domain'"),
    (Mark::At, "'at'"),
    (Mark::Over, "'over'"),
    (Mark::Start, "'start'"),
    (Mark::End, "'end'"),
    (Mark::All, "'all'"),
    (Mark::And, "'and'"),
    (Mark::Not, "'not'"),
    (Mark::Or, "'or'"),
    (Mark::Imply, "'imply'"),
    (Mark::Exists, "'exists'"),
    (Mark::Forall, "'forall'"),
    (Mark::When, "'when'"),
    (Mark::Assign, "'assign'"),
    (Mark::Increase, "'increase'"),
    (Mark::Decrease, "'decrease'"),
    (Mark::ScaleUp, "'scale-up'"),
    (Mark::ScaleDown, "'scale-down'"),
    (Mark::NumberWord, "'number'"),
    (Mark::Keyword, "a word of ':requirements'"),
];

/// The first of these marks that doesn't fit, or their number where all fit and more or nothing may follow.
fn misfit(alloc: Global, grammar: Grammar, marks: &[Mark]) -> Result<usize, AllocError> {
    match grammar {
        Grammar::Domain => match judge(alloc, marks) {
            Ok(()) => Ok(marks.len()),
            Err(
                Failure::Refused(
                    ShapeFault::Unsupported { at, .. }
                    | ShapeFault::Depth { at }
                    | ShapeFault::Unexpected { at },
                ),
            ) => Ok(at),
            Err(Failure::OutOfMemory) => Err(AllocError),
        },
        Grammar::Line(form) => Ok(form.first_misfit(alloc, marks)?.unwrap_or(marks.len())),
    }
}

/// The marks of the words that begin before a place.
fn marks_before(
    alloc: Global,
    text: &[u8],
    tokens: &[Token],
    at: usize,
) -> Result<Vec<Mark>, AllocError> {
    let mut marks = Vec::new(alloc);
    for token in tokens {
        if token.from >= at {
            break;
        }
        let (_, rest) = text.split_at(token.from.min(text.len()));
        let (word, _) = rest.split_at(token.to.saturating_sub(token.from).min(rest.len()));
        marks.push(mark_of(token.class, word))?;
    }
    Ok(marks)
}

/// Whether a mark fits after these.
fn fits(
    alloc: Global,
    grammar: Grammar,
    before: &mut Vec<Mark>,
    mark: Mark,
) -> Result<bool, AllocError> {
    let count = before.len();
    before.push(mark)?;
    let fault = misfit(alloc, grammar, before.as_slice())?;
    before.pop();
    Ok(fault > count)
}

/// Says these words, as one list.
fn say_list(words: &[&'static str], page: &mut Page) -> Result<(), AllocError> {
    for (i, word) in words.iter().enumerate() {
        if i > 0 {
            let is_last = i.saturating_add(1) == words.len();
            page.say(if is_last { " or " } else { ", " })?;
        }
        page.say(word)?;
    }
    Ok(())
}

/// Whether a text of this grammar may have variables.
fn has_variables(grammar: Grammar) -> bool {
    match grammar {
        Grammar::Domain => true,
        Grammar::Line(form) => form == Form::SetGoal,
    }
}

/// The words that fit after these. Where any name does, no name is told by itself.
fn all_fitting(
    alloc: Global,
    grammar: Grammar,
    before: &mut Vec<Mark>,
) -> Result<Vec<&'static str>, AllocError> {
    let mut words = Vec::new(alloc);
    let any_name = fits(alloc, grammar, before, Mark::Name)?;
    for (mark, told) in CANDIDATES {
        let is_told = any_name && mark.is_name() && mark != Mark::Name;
        let is_free = mark == Mark::Variable && !has_variables(grammar);
        if !is_told && !is_free && fits(alloc, grammar, before, mark)? {
            words.push(told)?;
        }
    }
    Ok(words)
}

/// What may stand at a place of a text whose words have classes.
pub fn expected(
    alloc: Global,
    grammar: Grammar,
    text: &[u8],
    at: usize,
) -> Result<Vec<&'static str>, AllocError> {
    let Ok(tokens) = tokens(alloc, text) else {
        return Ok(Vec::new(alloc));
    };
    let mut before = marks_before(alloc, text, tokens.as_slice(), at)?;
    all_fitting(alloc, grammar, &mut before)
}

/// Says what may stand at a place, if something may.
pub fn say_expected(words: &[&'static str], page: &mut Page) -> Result<(), AllocError> {
    if words.is_empty() {
        return Ok(());
    }
    page.say("  Here may stand ")?;
    say_list(words, page)?;
    page.say(".\n")
}

/// Whether a variable may stand at a place by its form, where these words may.
pub fn takes_variable(words: &[&'static str]) -> bool {
    words.iter().any(|word| *word == VARIABLE)
}
