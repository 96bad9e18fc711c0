//! The forms of a line.
ghost use Rattle.std.specs.Prelude.{◌≡◌, ◌∷◌, [], Ok, Some, codes, IfOk, IfSome, IsTrue};
ghost use Rattle.ps_text.specs.Words.{word_at};
ghost use Rattle.ps_grammar.specs.Shape.{Derives, IsFirstFaultFrom, IsShallowFrom};
ghost use Rattle.ps_grammar.specs.declared.symbols.Symbol.TheVariants.{AnyName, InGoal};
ghost use Rattle.ps_grammar.specs.declared.symbols.GoalPart.TheVariants as goal;
ghost use Rattle.ps_script.specs.Forms.{form_of, start_of};

use super::files::reads_as;
use ps_grammar::{GoalPart, Mark, Symbol, first_fault};
use ps_text::Words;
use std::alloc::{AllocError, Global};

/// A form of a line, by its leading words.
#[derive(Clone, Copy, PartialEq, Eq, Debug)]
pub enum Form {
    /// `set instance NAME NAME`
    SetInstance,
    /// `set predicate (NAME NAME*)`
    SetPredicate,
    /// `set function (= (NAME NAME*) NUMBER)`
    SetFunction,
    /// `set goal C`
    SetGoal,
    /// `remove instance NAME`
    RemoveInstance,
    /// `remove predicate (NAME NAME*)`
    RemovePredicate,
    /// `remove function (NAME NAME*)`
    RemoveFunction,
    /// `remove goal`
    RemoveGoal,
    /// `get model types`
    ModelTypes,
    /// `get model predicates`
    ModelPredicates,
    /// `get model functions`
    ModelFunctions,
    /// `get model actions`
    ModelActions,
    /// `get model predicate NAME`
    ModelPredicate,
    /// `get model action NAME`
    ModelAction,
    /// `get domain`
    Domain,
    /// `get problem instances`
    ProblemInstances,
    /// `get problem predicates`
    ProblemPredicates,
    /// `get problem functions`
    ProblemFunctions,
    /// `get problem goal`
    ProblemGoal,
    /// `get plan`
    Plan,
    /// `quit`
    Quit,
    /// `get tree`
    Tree,
    /// `run`
    Run,
    /// `run action (NAME NAME*)`
    RunAction,
}

/// The form of a line that begins with `set` and this word.
fn form_of_set(second: &[u8]) -> Option<Form>
    ensures { result ≡ form_of (codes "set" ∷ second.now ∷ []) }
{
    if reads_as(second, b"instance") {
        Some(Form::SetInstance)
    } else if reads_as(second, b"predicate") {
        Some(Form::SetPredicate)
    } else if reads_as(second, b"function") {
        Some(Form::SetFunction)
    } else if reads_as(second, b"goal") {
        Some(Form::SetGoal)
    } else {
        None
    }
}

/// The form of a line that begins with `remove` and this word.
fn form_of_remove(second: &[u8]) -> Option<Form>
    ensures { result ≡ form_of (codes "remove" ∷ second.now ∷ []) }
{
    if reads_as(second, b"instance") {
        Some(Form::RemoveInstance)
    } else if reads_as(second, b"predicate") {
        Some(Form::RemovePredicate)
    } else if reads_as(second, b"function") {
        Some(Form::RemoveFunction)
    } else if reads_as(second, b"goal") {
        Some(Form::RemoveGoal)
    } else {
        None
    }
}

/// The form of a line that begins with `run` and this word.
fn form_of_run(second: &[u8]) -> Form
    ensures { Some result ≡ form_of (codes "run" ∷ second.now ∷ []) }
{
    if reads_as(second, b"action") {
        Form::RunAction
    } else {
        Form::Run
    }
}

/// The form of a line that begins with `get model` and this word.
fn form_of_model(third: &[u8]) -> Option<Form>
    ensures { result ≡ form_of (codes "get" ∷ codes "model" ∷ third.now ∷ []) }
{
    if reads_as(third, b"types") {
        Some(Form::ModelTypes)
    } else if reads_as(third, b"predicates") {
        Some(Form::ModelPredicates)
    } else if reads_as(third, b"functions") {
        Some(Form::ModelFunctions)
    } else if reads_as(third, b"actions") {
        Some(Form::ModelActions)
    } else if reads_as(third, b"predicate") {
        Some(Form::ModelPredicate)
    } else if reads_as(third, b"action") {
        Some(Form::ModelAction)
    } else {
        None
    }
}

/// The form of a line that begins with `get problem` and this word.
fn form_of_problem(third: &[u8]) -> Option<Form>
    ensures { result ≡ form_of (codes "get" ∷ codes "problem" ∷ third.now ∷ []) }
{
    if reads_as(third, b"instances") {
        Some(Form::ProblemInstances)
    } else if reads_as(third, b"predicates") {
        Some(Form::ProblemPredicates)
    } else if reads_as(third, b"functions") {
        Some(Form::ProblemFunctions)
    } else if reads_as(third, b"goal") {
        Some(Form::ProblemGoal)
    } else {
        None
    }
}

/// The form of a line that begins with `get` and these words.
fn form_of_get(second: &[u8], third: &[u8]) -> Option<Form>
    ensures { result ≡ form_of (codes "get" ∷ second.now ∷ third.now ∷ []) }
{
    if reads_as(second, b"model") {
        form_of_model(third)
    } else if reads_as(second, b"problem") {
        form_of_problem(third)
    } else if reads_as(second, b"domain") {
        Some(Form::Domain)
    } else if reads_as(second, b"plan") {
        Some(Form::Plan)
    } else if reads_as(second, b"tree") {
        Some(Form::Tree)
    } else {
        None
    }
}

/// The form of a line by its first three words, each of which is empty where there are fewer.
pub(crate) fn form_of_leading(first: &[u8], second: &[u8], third: &[u8]) -> Option<Form>
    ensures { result ≡ form_of (first.now ∷ second.now ∷ third.now ∷ []) }
{
    if reads_as(first, b"set") {
        form_of_set(second)
    } else if reads_as(first, b"remove") {
        form_of_remove(second)
    } else if reads_as(first, b"get") {
        form_of_get(second, third)
    } else if reads_as(first, b"run") {
        Some(form_of_run(second))
    } else if reads_as(first, b"quit") {
        Some(Form::Quit)
    } else {
        None
    }
}

/// The word at a place, or an empty one past the end.
fn word_at<'a>(words: &'a Words, i: usize) -> &'a [u8]
    ensures { result.now ≡ word_at words.now i }
{
    if i < words.len() { words.word(i) } else { &[] }
}

/// The longest form that words begin with.
pub fn form_of(words: &Words) -> Option<Form>
    ensures { result ≡ form_of words.now }
{
    form_of_leading(word_at(words, 0), word_at(words, 1), word_at(words, 2))
}

impl Form {
    /// Whether a fact follows the form's two words.
    pub fn wants_fact(self) -> bool
        ensures { IsTrue result → start_of self ≡ AnyName ∷ AnyName ∷ InGoal goal.Atom ∷ [] }
    {
        match self {
            Form::SetPredicate | Form::RemovePredicate | Form::RemoveFunction | Form::RunAction => {
                true
            }
            _ => false,
        }
    }

    /// The place of the first word of a line of this form that doesn't fit, or of the line's end where more is wanted.
    pub fn first_misfit(self, alloc: Global, marks: &[Mark]) -> Result<Option<usize>, AllocError>
        ensures none { result ≡ Ok None
            → Derives (start_of self) marks.now × IsShallowFrom (start_of self) marks.now }
        ensures fault { IfOk result (λ place. IfSome place
            (λ at. IsFirstFaultFrom (start_of self) marks.now at)) }
    {
        let name = Symbol::AnyName;
        let atom = Symbol::InGoal(GoalPart::Atom);
        match self {
            Form::SetInstance | Form::ModelPredicate | Form::ModelAction => {
                first_fault(alloc, &[name, name, name, name], marks)
            }
            Form::SetPredicate | Form::RemovePredicate | Form::RemoveFunction | Form::RunAction => {
                first_fault(alloc, &[name, name, atom], marks)
            }
            Form::SetFunction => {
                let open = Symbol::The(Mark::Open);
                let equal = Symbol::The(Mark::Equal);
                let number = Symbol::The(Mark::Number);
                let close = Symbol::The(Mark::Close);
                first_fault(
                    alloc,
                    &[name, name, open, equal, atom, number, close],
                    marks,
                )
            }
            Form::SetGoal => {
                first_fault(
                    alloc,
                    &[name, name, Symbol::InGoal(GoalPart::Condition)],
                    marks,
                )
            }
            Form::RemoveGoal | Form::Domain | Form::Plan | Form::Tree => {
                first_fault(alloc, &[name, name], marks)
            }
            Form::Quit | Form::Run => first_fault(alloc, &[name], marks),
            _ => first_fault(alloc, &[name, name, name], marks),
        }
    }
}
