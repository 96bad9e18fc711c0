//! Lines that say a fact or an instance in plain names. Most lines do; that such a line fits, and what it says, is seen from its words,
//! without a list of what is wanted and without nested lists.
ghost use Rattle.std.specs.Prelude.{◌≡◌, IfSome};
ghost use Rattle.ps_lists.specs.Lexemes.{marks};
ghost use Rattle.ps_script.specs.FactLines.{EndsValue, Means, SaysFact, are_names, are_plain, args_said, begins_value, fact_said, is_fact, says_fact};
ghost use Rattle.ps_script.specs.declared.forms.Form.TheVariants as form;

use super::forms::Form;
use ps_action::Act;
use ps_grammar::{MOST_NAMES, Mark};
use ps_lists::Lexeme;
use ps_machine::Command;
use ps_world::{Args, Edit, Fact, MOST_ARGUMENTS, Name, Num};

/// How many words a line that gives a function a value has at least.
const VALUE_WORDS: usize = 9;

/// Whether these are at most so many plain names and then the parenthesis that ends the line.
fn are_names(most: u8, words: &[Lexeme]) -> bool
    ensures { result ≡ are_names most (marks words.now) }
{
    match words {
        [] => false,
        [word, rest @ ..] => {
            if word.mark == Mark::Close {
                rest.is_empty()
            } else {
                most > 0 && word.mark == Mark::Name && are_names(most - 1, rest)
            }
        }
    }
}

/// Whether these are a fact in plain names.
fn is_fact(words: &[Lexeme]) -> bool
    ensures { result ≡ is_fact (marks words.now) }
{
    match words {
        [left, head, rest @ ..] => {
            left.mark == Mark::Open
                && (head.mark == Mark::Name || head.mark == Mark::At)
                && are_names(MOST_NAMES, rest)
        }
        _ => false,
    }
}

/// Whether these are two words and then a fact in plain names.
fn says_fact(words: &[Lexeme]) -> bool
    ensures { result ≡ says_fact (marks words.now) }
{
    match words {
        [first, second, rest @ ..] => {
            first.mark == Mark::Name && second.mark == Mark::Name && is_fact(rest)
        }
        _ => false,
    }
}

/// The names of these words but the last, of which there are 6 at most.
fn args_said(words: &[Lexeme]) -> Args
    ensures { result ≡ args_said words.now }
{
    let count = words.len().saturating_sub(1).min(MOST_ARGUMENTS);
    let mut args = Args::none();
    for word in &words[..count] {
        args.push(word.name);
    }
    args
}

/// The fact that words say between two parentheses, by their places.
fn fact_said(words: &[Lexeme]) -> Fact
    ensures { result ≡ fact_said words.now }
{
    match words {
        [_, head, rest @ ..] => Fact {
            head: head.name,
            args: args_said(rest),
        },
        _ => Fact {
            head: Name::OBJECT,
            args: Args::none(),
        },
    }
}

/// The fact in plain names after two words, if the words are that.
fn plain_fact(words: &[Lexeme]) -> Option<Fact>
    ensures { IfSome result (SaysFact words.now) }
{
    match words {
        [_, _, fact @ ..] if says_fact(words) => Some(fact_said(fact)),
        _ => None,
    }
}

/// Whether these begin a line that gives a function a value.
fn begins_value(words: &[Lexeme]) -> bool
    ensures { result ≡ begins_value (marks words.now) }
{
    match words {
        [first, second, left, equal] => {
            (first.mark == Mark::Name && second.mark == Mark::Name)
                && (left.mark == Mark::Open && equal.mark == Mark::Equal)
        }
        _ => false,
    }
}

/// The number that ends a line that gives a function a value, if these end one.
fn number_said(words: &[Lexeme]) -> Option<Num>
    ensures { IfSome result (EndsValue words.now) }
{
    match words {
        [number, right] if number.mark == Mark::Number && right.mark == Mark::Close => Some(
            number.number,
        ),
        _ => None,
    }
}

/// The command of a line that gives a function a value, if it does so in plain names.
fn value_set(words: &[Lexeme]) -> Option<Command>
    ensures { IfSome result (Means form.SetFunction words.now) }
{
    if words.len() < VALUE_WORDS {
        return None;
    }
    let (front, end) = words.split_at(words.len() - 2);
    let (start, fact) = front.split_at(4);
    let number = number_said(end)?;
    if begins_value(start) && is_fact(fact) {
        Some(Command::Edit(Edit::SetValue(fact_said(fact), number)))
    } else {
        None
    }
}

/// Whether these are plain names alone.
fn are_plain(words: &[Lexeme]) -> bool
    ensures { result ≡ are_plain words.now }
{
    words.iter().all(|word| word.mark == Mark::Name)
}

/// The command of a line that sets an instance, if it has plain names alone.
fn instance_set(words: &[Lexeme]) -> Option<Command>
    ensures { IfSome result (Means form.SetInstance words.now) }
{
    match words {
        [_, _, name, kind] if are_plain(words) => Some(Command::Edit(Edit::AddInstance(
            name.name, kind.name,
        ))),
        _ => None,
    }
}

/// The command of a line that removes an instance, if it has plain names alone.
fn instance_removed(words: &[Lexeme]) -> Option<Command>
    ensures { IfSome result (Means form.RemoveInstance words.now) }
{
    match words {
        [_, _, name] if are_plain(words) => Some(Command::Edit(Edit::RemoveInstance(name.name))),
        _ => None,
    }
}

/// The command of a line of a form that wants a fact, if it says one in plain names.
fn fact_command(form: Form, words: &[Lexeme]) -> Option<Command>
    ensures { IfSome result (Means form words.now) }
{
    if !form.wants_fact() {
        return None;
    }
    let fact = plain_fact(words)?;
    match form {
        Form::SetPredicate => Some(Command::Edit(Edit::AddFact(fact))),
        Form::RemovePredicate => Some(Command::Edit(Edit::RemoveFact(fact))),
        Form::RemoveFunction => Some(Command::Edit(Edit::RemoveValue(fact))),
        Form::RunAction => Some(Command::RunAction(Act {
            action: fact.head,
            args: fact.args,
        })),
        _ => None,
    }
}

/// The command of a line of a form that says a fact or an instance in plain names, if it is such a line.
pub fn plain_command(form: Form, words: &[Lexeme]) -> Option<Command>
    ensures { IfSome result (Means form words.now) }
{
    match form {
        Form::SetInstance => instance_set(words),
        Form::RemoveInstance => instance_removed(words),
        Form::SetFunction => value_set(words),
        _ => fact_command(form, words),
    }
}
