//! Equality of causes.
ghost use Rattle.std.specs.Prelude.{◌≡◌};
ghost use Rattle.ps_legal.specs.Same.{equal_causes, equal_edit_refusals, equal_effect_refusals, equal_ground_refusals, equal_line_causes, equal_plan_refusals, equal_text_refusals};

use ps_action::{EffectRefusal, GroundRefusal, PlanRefusal, PlanTextRefusal};
use ps_machine::{LineCause, Refusal};
use ps_world::EditRefusal;

fn equal_line_causes(why: LineCause, other: LineCause) -> bool
    ensures { result ≡ equal_line_causes why other }
{
    why == other
}

fn equal_edit_refusals(why: EditRefusal, other: EditRefusal) -> bool
    ensures { result ≡ equal_edit_refusals why other }
{
    why == other
}

fn equal_ground_refusals(why: GroundRefusal, other: GroundRefusal) -> bool
    ensures { result ≡ equal_ground_refusals why other }
{
    why == other
}

fn equal_effect_refusals(why: EffectRefusal, other: EffectRefusal) -> bool
    ensures { result ≡ equal_effect_refusals why other }
{
    why == other
}

fn equal_text_refusals(why: PlanTextRefusal, other: PlanTextRefusal) -> bool
    ensures { result ≡ equal_text_refusals why other }
{
    why == other
}

fn equal_plan_refusals(why: PlanRefusal, other: PlanRefusal) -> bool
    ensures { result ≡ equal_plan_refusals why other }
{
    match why {
        PlanRefusal::NoGoal => match other {
            PlanRefusal::NoGoal => true,
            _ => false,
        },
        PlanRefusal::Ground(n, cause) => match other {
            PlanRefusal::Ground(m, reason) => {
                let same = equal_ground_refusals(cause, reason);
                n == m && same
            }
            _ => false,
        },
        PlanRefusal::StartFalse(n) => match other {
            PlanRefusal::StartFalse(m) => n == m,
            _ => false,
        },
        PlanRefusal::StartEffect(n, cause) => match other {
            PlanRefusal::StartEffect(m, reason) => {
                let same = equal_effect_refusals(cause, reason);
                n == m && same
            }
            _ => false,
        },
        PlanRefusal::OverAllFalse(n) => match other {
            PlanRefusal::OverAllFalse(m) => n == m,
            _ => false,
        },
        PlanRefusal::EndFalse(n) => match other {
            PlanRefusal::EndFalse(m) => n == m,
            _ => false,
        },
        PlanRefusal::EndEffect(n, cause) => match other {
            PlanRefusal::EndEffect(m, reason) => {
                let same = equal_effect_refusals(cause, reason);
                n == m && same
            }
            _ => false,
        },
        PlanRefusal::GoalFalse => match other {
            PlanRefusal::GoalFalse => true,
            _ => false,
        },
    }
}

/// Whether two causes are equal.
pub fn equal_causes(why: Refusal, other: Refusal) -> bool
    ensures { result ≡ equal_causes why other }
{
    match why {
        Refusal::Line(cause) => match other {
            Refusal::Line(reason) => equal_line_causes(cause, reason),
            _ => false,
        },
        Refusal::Edit(cause) => match other {
            Refusal::Edit(reason) => equal_edit_refusals(cause, reason),
            _ => false,
        },
        Refusal::Ground(cause) => match other {
            Refusal::Ground(reason) => equal_ground_refusals(cause, reason),
            _ => false,
        },
        Refusal::Plan(cause) => match other {
            Refusal::Plan(reason) => equal_plan_refusals(cause, reason),
            _ => false,
        },
        Refusal::PlanText(cause) => match other {
            Refusal::PlanText(reason) => equal_text_refusals(cause, reason),
            _ => false,
        },
        Refusal::NoGoal => match other {
            Refusal::NoGoal => true,
            _ => false,
        },
        Refusal::NoPlan => match other {
            Refusal::NoPlan => true,
            _ => false,
        },
        Refusal::Spent(n) => match other {
            Refusal::Spent(m) => n == m,
            _ => false,
        },
        Refusal::TooMany => match other {
            Refusal::TooMany => true,
            _ => false,
        },
        Refusal::NoRun => match other {
            Refusal::NoRun => true,
            _ => false,
        },
        Refusal::NoPredicate => match other {
            Refusal::NoPredicate => true,
            _ => false,
        },
        Refusal::NoAction => match other {
            Refusal::NoAction => true,
            _ => false,
        },
    }
}
