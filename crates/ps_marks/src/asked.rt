//! What conditions and goals ask for: their atoms.
ghost use Rattle.std.specs.Prelude.{◌≡◌, ◌++◌, IfOk, OnOk};
ghost use Rattle.std.specs.Option.{option_copied};
ghost use Rattle.ps_world.specs.CondViews.{cond_tree};
ghost use Rattle.ps_marks.specs.Atoms.{atoms, atoms_of};
ghost use Rattle.ps_marks.specs.Landmarks.{goal_atoms};
ghost use Rattle.ps_marks.specs.Rules.{all_asked, asked, later_atoms};

use ps_action::GroundAction;
use ps_world::{Cond, Conds, Env, Fact};
use std::alloc::{AllocError, Global};

/// Puts the atoms of a condition at the end.
#[cycle(atoms)]
fn push_atoms(cond: &Cond, facts: &mut Vec<Fact>) -> Result<(), AllocError>
    ensures { OnOk result (facts.new.items ≡ facts.old.items ++ atoms (cond_tree cond.now)) }
{
    match cond {
        Cond::And(parts) => push_all_atoms(parts, facts),
        Cond::Holds(lifted) => {
            facts.push(lifted.get().ground_in(&Env::of(&[])))?;
            Ok(())
        }
        _ => Ok(()),
    }
}

/// Puts the atoms of a list of conditions at the end.
#[cycle(atoms)]
pub fn push_all_atoms(conds: &Conds, facts: &mut Vec<Fact>) -> Result<(), AllocError>
    ensures { OnOk result (facts.new.items ≡ facts.old.items ++ atoms_of conds.now) }
{
    for cond in conds.as_slice() {
        push_atoms(cond, facts)?;
    }
    Ok(())
}

/// The atoms that have to be known while a ground action runs, and when it ends.
pub fn later_atoms(alloc: Global, action: &GroundAction) -> Result<Vec<Fact>, AllocError>
    ensures { IfOk result (λ facts. facts.items ≡ later_atoms action.now) }
{
    let mut facts = Vec::new(alloc);
    push_all_atoms(&action.conditions.over_all, &mut facts)?;
    push_all_atoms(&action.conditions.at_end, &mut facts)?;
    Ok(facts)
}

/// Puts the atoms of a ground action at the end.
fn push_asked(action: &GroundAction, facts: &mut Vec<Fact>) -> Result<(), AllocError>
    ensures { OnOk result (facts.new.items ≡ facts.old.items ++ asked action.now) }
{
    push_all_atoms(&action.conditions.at_start, facts)?;
    push_all_atoms(&action.conditions.over_all, facts)?;
    push_all_atoms(&action.conditions.at_end, facts)
}

/// The atoms of the goal, if there is one.
pub fn goal_atoms(alloc: Global, goal: Option<&Cond>) -> Result<Vec<Fact>, AllocError>
    ensures { IfOk result (λ facts. facts.items ≡ goal_atoms (option_copied goal.entry)) }
{
    let mut facts = Vec::new(alloc);
    if let Some(goal) = goal {
        push_atoms(goal, &mut facts)?;
    }
    Ok(facts)
}

/// The atoms of these ground actions and of the goal, if there is one.
pub fn all_asked(
    alloc: Global,
    actions: &[GroundAction],
    goal: Option<&Cond>,
) -> Result<Vec<Fact>, AllocError>
    ensures { IfOk result (λ facts. facts.items ≡ all_asked actions.now (option_copied goal.entry)) }
{
    let mut facts = Vec::new(alloc);
    for action in actions {
        push_asked(action, &mut facts)?;
    }
    if let Some(goal) = goal {
        push_atoms(goal, &mut facts)?;
    }
    Ok(facts)
}
