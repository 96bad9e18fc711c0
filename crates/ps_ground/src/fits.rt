//! Acts whose arguments fit.
ghost use Rattle.std.specs.Prelude.{◌≡◌, true, false, None};
ghost use Rattle.std.specs.List.{AllByRecursion, list_any};
ghost use Rattle.std.specs.Result.{result_ok};
ghost use Rattle.ps_world.specs.Knowledge.{kind_of};
ghost use Rattle.ps_world.specs.Names.{same_name};
ghost use Rattle.ps_world.specs.declared.known.Knowledge.{Knowledge as KnowledgeView};
ghost use Rattle.ps_action.specs.Grounding.{ground_act};
ghost use Rattle.ps_action.specs.Search.{possible_acts};
ghost use Rattle.ps_action.specs.Truth.{fits};
ghost use Rattle.ps_ground.specs.Fitting.{AreFirstActions, IsFit, all_fit};

use super::acts::rise;
use ps_action::Act;
use ps_domain::Expert;
use ps_problem::Problem;
use ps_world::{ActionDef, Name, Param};

/// Whether an argument is an instance that fits its parameter.
fn fits(expert: &Expert, problem: &Problem, param: &Param, name: Name) -> bool
    ensures { result ≡ fits expert.now (kind_of problem.now name) param.now.kind }
{
    match problem.kind_of(name) {
        Some(kind) => expert.is_subtype(kind, param.kind),
        None => false,
    }
}

/// Whether each argument is an instance that fits its parameter.
fn all_fit(expert: &Expert, problem: &Problem, params: &[Param], args: &[Name]) -> bool
    ensures { result ≡ all_fit expert.now problem.now params.now args.now }
{
    params
        .iter()
        .zip(args)
        .all(|(param, name)| fits(expert, problem, param, *name))
}

/// Whether an act can be grounded.
pub fn is_fit(expert: &Expert, problem: &Problem, act: &Act) -> bool
    ensures fit { result ≡ true → IsFit expert.now problem.now act.now }
    ensures unfit { result ≡ false
        → result_ok (ground_act expert.now problem.now.instances act.now) ≡ None }
{
    let Some(action) = expert.action(act.action) else {
        return false;
    };
    let params = action.params.as_slice();
    let args = act.args.as_slice();
    params.len() == args.len() && all_fit(expert, problem, params, args)
}

/// Whether one of these actions has this name.
fn is_named(actions: &[ActionDef], name: Name) -> bool
    ensures { result ≡ list_any (λ a. same_name name a.name) actions.now }
{
    actions.iter().any(|action| name == action.name)
}

/// Whether no action has the name of one before it.
fn are_first(actions: &[ActionDef]) -> bool
    ensures { result ≡ true → AreFirstActions actions.now }
{
    for (i, action) in actions.iter().enumerate() {
        if is_named(&actions[..i], action.name) {
            return false;
        }
    }
    true
}

/// Whether no action and no instance stands twice, so that each possible act can be grounded. Instances have to rise.
pub fn stand_once(expert: &Expert, instances: &[(Name, Name)]) -> bool
    ensures { result ≡ true → (k : KnowledgeView) → k.instances ≡ instances.now
        → AllByRecursion (IsFit expert.now k) (possible_acts expert.now k) }
{
    rise(instances) && are_first(expert.domain().actions.as_slice())
}
