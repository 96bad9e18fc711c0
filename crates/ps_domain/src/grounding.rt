//! Ground actions: an act's action with the arguments of the act put in.
ghost use Rattle.std.specs.Prelude.{◌≡◌, length, IfErr, IfOk, Err, Ok};
ghost use Rattle.ps_action.specs.Grounding.{ground_act, grounded, put_all_effects, put_conditions};
ghost use Rattle.ps_domain.specs.Grounding.{Grounds};

use super::expert::Expert;
use super::putting::{put_effects, put_list};
use ps_action::{Act, GroundAction, GroundRefusal, Instances, first_misfit, put_expr};
use ps_world::{ActionDef, Conditions, Effects, Env, Failure, Name, Param};
use std::alloc::{AllocError, Global};

fn put_conditions(
    alloc: Global,
    params: &[Param],
    args: &[Name],
    conditions: &Conditions,
) -> Result<Conditions, AllocError>
    requires { length params.now ≡ length args.now }
    ensures { IfOk result (λ c. c ≡ put_conditions params.now args.now conditions.now) }
{
    Ok(Conditions {
        at_start: put_list(alloc, params, args, &conditions.at_start)?,
        over_all: put_list(alloc, params, args, &conditions.over_all)?,
        at_end: put_list(alloc, params, args, &conditions.at_end)?,
    })
}

fn put_all_effects(alloc: Global, args: &[Name], effects: &Effects) -> Result<Effects, AllocError>
    ensures { IfOk result (λ e. e ≡ put_all_effects args.now effects.now) }
{
    Ok(Effects {
        at_start: put_effects(alloc, args, effects.at_start.as_slice())?,
        at_end: put_effects(alloc, args, effects.at_end.as_slice())?,
    })
}

/// The ground action of an act of this action.
pub fn grounded(alloc: Global, action: &ActionDef, act: &Act) -> Result<GroundAction, AllocError>
    requires { length action.now.params ≡ length act.now.args }
    ensures { IfOk result (λ g. g ≡ grounded action.now act.now) }
{
    let args = act.args.as_slice();
    Ok(GroundAction {
        act: *act,
        duration: put_expr(alloc, &Env::of(args), &action.duration)?,
        conditions: put_conditions(alloc, action.params.as_slice(), args, &action.conditions)?,
        effects: put_all_effects(alloc, args, &action.effects)?,
    })
}

impl Expert {
    /// The action of an act that can be grounded among these instances, or the first refusal: `NoAction`, `Arity`, and then for
    /// each argument `NoInstance`, `WrongType`. It takes no memory.
    pub fn groundable(
        &self,
        instances: &[(Name, Name)],
        act: &Act,
    ) -> Result<&ActionDef, GroundRefusal>
        ensures ok { IfOk result (λ action. ground_act self.now instances.now act.now ≡ Ok (grounded action.now act.now)) }
        ensures fits { IfOk result (λ action. length action.now.params ≡ length act.now.args) }
        ensures err { IfErr result (λ why. ground_act self.now instances.now act.now ≡ Err why) }
    {
        let Some(action) = self.action(act.action) else {
            return Err(GroundRefusal::NoAction);
        };
        let params = action.params.as_slice();
        let args = act.args.as_slice();
        let want = params.len();
        let got = args.len();
        if want != got {
            return Err(GroundRefusal::Arity { want, got });
        }
        let known = Instances { listed: instances };
        match first_misfit(&known, self, params, args) {
            Some(fault) => Err(fault),
            None => Ok(action),
        }
    }

    /// The ground action of an act among these instances, or the first refusal, as `groundable` tells it.
    pub fn ground(
        &self,
        instances: &[(Name, Name)],
        act: &Act,
    ) -> Result<GroundAction, Failure<GroundRefusal>>
        ensures { Grounds self.now instances.now act.now result }
    {
        match self.groundable(instances, act) {
            Ok(action) => Ok(grounded(self.alloc, action, act)?),
            Err(refusal) => Err(Failure::Refused(refusal)),
        }
    }
}
