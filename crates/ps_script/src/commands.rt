//! The command that a line of a form is.
ghost use Rattle.std.specs.Prelude.{◌≡◌, IfOk, map};
ghost use Rattle.ps_lists.specs.Nested.{nesteds};
ghost use Rattle.ps_lists.specs.NestedViews.{nested};
ghost use Rattle.ps_script.specs.Commands.{acted, after_two, command_of, fourth_name, stated, valued};

use super::forms::Form;
use super::goals::{fact_of, first_condition};
use ps_action::Act;
use ps_lists::{Tree, head, items_at, rest};
use ps_machine::{Command, Query};
use ps_world::{Edit, Fact, Goal, Name};
use std::alloc::{AllocError, Global};

/// What stands after the two fixed words of an edit.
fn after_two(trees: &[Tree]) -> &[Tree]
    ensures { nesteds (map nested result.now) ≡ after_two (nesteds (map nested trees.now)) }
{
    rest(rest(trees))
}

/// The name after three words.
fn fourth_name(trees: &[Tree]) -> Name
    ensures { result ≡ fourth_name (nesteds (map nested trees.now)) }
{
    head(rest(rest(rest(trees)))).name
}

/// The fact after the two fixed words.
fn stated(trees: &[Tree]) -> Fact
    ensures { result ≡ stated (nesteds (map nested trees.now)) }
{
    fact_of(items_at(after_two(trees)))
}

/// The act after the two fixed words.
fn acted(trees: &[Tree]) -> Act
    ensures { result ≡ acted (nesteds (map nested trees.now)) }
{
    let fact = stated(trees);
    Act {
        action: fact.head,
        args: fact.args,
    }
}

/// `(= (NAME NAME*) NUMBER)`, by what stands between its parentheses.
fn valued(trees: &[Tree]) -> Command
    ensures { result ≡ valued (nesteds (map nested trees.now)) }
{
    let fact = fact_of(items_at(rest(trees)));
    let number = head(rest(rest(trees))).number;
    Command::Edit(Edit::SetValue(fact, number))
}

/// The command that a line is, by its form and its nested lists.
pub fn command_of(alloc: Global, form: Form, trees: &[Tree]) -> Result<Command, AllocError>
    ensures { IfOk result (λ c. c ≡ command_of form (nesteds (map nested trees.now))) }
{
    Ok(match form {
        Form::SetInstance => {
            let name = head(after_two(trees)).name;
            Command::Edit(Edit::AddInstance(name, fourth_name(trees)))
        }
        Form::SetPredicate => Command::Edit(Edit::AddFact(stated(trees))),
        Form::SetFunction => valued(items_at(after_two(trees))),
        Form::SetGoal => {
            let cond = first_condition(alloc, after_two(trees))?;
            Command::Edit(Edit::SetGoal(Goal::new(alloc, cond)?))
        }
        Form::RemoveInstance => Command::Edit(Edit::RemoveInstance(head(after_two(trees)).name)),
        Form::RemovePredicate => Command::Edit(Edit::RemoveFact(stated(trees))),
        Form::RemoveFunction => Command::Edit(Edit::RemoveValue(stated(trees))),
        Form::RemoveGoal => Command::Edit(Edit::RemoveGoal),
        Form::ModelTypes => Command::Ask(Query::ModelTypes),
        Form::ModelPredicates => Command::Ask(Query::ModelPredicates),
        Form::ModelFunctions => Command::Ask(Query::ModelFunctions),
        Form::ModelActions => Command::Ask(Query::ModelActions),
        Form::ModelPredicate => Command::Ask(Query::ModelPredicate(fourth_name(trees))),
        Form::ModelAction => Command::Ask(Query::ModelAction(fourth_name(trees))),
        Form::Domain => Command::Ask(Query::Domain),
        Form::ProblemInstances => Command::Ask(Query::ProblemInstances),
        Form::ProblemPredicates => Command::Ask(Query::ProblemPredicates),
        Form::ProblemFunctions => Command::Ask(Query::ProblemFunctions),
        Form::ProblemGoal => Command::Ask(Query::ProblemGoal),
        Form::Plan => Command::Ask(Query::Plan),
        Form::Tree => Command::Ask(Query::Tree),
        Form::Run => Command::Run,
        Form::RunAction => Command::RunAction(acted(trees)),
        Form::Quit => Command::Quit,
    })
}
