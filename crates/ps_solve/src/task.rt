//! A problem, prepared for a search.
ghost use Rattle.std.specs.Prelude.{◌≡◌, ◌<◌, ◌∷◌, ◌++◌, [], length, IfOk, IsSome, MatchOption, OnOk};
ghost use Rattle.ps_action.specs.Grounding.{all_ground, most_ground};
ghost use Rattle.ps_ground.specs.Goals.{is_good};
ghost use Rattle.ps_ground.specs.Independence.{is_pruned};
ghost use Rattle.ps_ground.specs.States.{state_of};
ghost use Rattle.ps_solve.specs.Queue.{acts_at};
ghost use Rattle.ps_solve.specs.Rows.{plain_state};
ghost use Rattle.ps_solve.specs.Tasks.{IsPrepared, prepared_prop};

use super::rows::Row;
use ps_action::Act;
use ps_domain::Expert;
use ps_ground::{Grounds, Prepared, Test, prepare_goal};
use ps_problem::Problem;
use ps_world::{Cond, Seq};
use std::alloc::{AllocError, Global};

/// A problem, prepared for a search: its goal, its ground actions and the atoms that they are over.
#[derive(Drop)]
pub struct Task<'a> {
    pub alloc: Global,
    pub expert: &'a Expert,
    pub problem: &'a Problem,
    pub goal: &'a Cond,
    /// The goal, prepared.
    pub test: Test,
    pub grounds: Grounds,
    ghost prepared: { IsPrepared expert.now problem.now goal.now test grounds.atoms
        grounds.actions.items } by { prepared_prop },
}

impl<'a> Task<'a> {
    /// The problem, prepared. None exactly where there are more than 50,000 ground actions.
    pub fn of(
        alloc: Global,
        expert: &'a Expert,
        problem: &'a Problem,
    ) -> Result<Option<Task<'a>>, AllocError>
        requires { IsSome problem.now.goal }
        ensures { IfOk result (λ made. MatchOption made
            (most_ground < length (all_ground expert.now problem.now.instances))
            (λ task. (task.expert.now ≡ expert.now) × (task.problem.now ≡ problem.now))) }
    {
        let Some(goal) = problem.goal() else {
            unreachable!()
        };
        let Some(grounds) = Grounds::of(alloc, expert, problem)? else {
            return Ok(None);
        };
        let test = prepare_goal(alloc, &grounds.atoms, goal)?;
        Ok(Some(Task {
            alloc,
            expert,
            problem,
            goal,
            test,
            grounds,
        }))
    }

    /// The row of what is known at first.
    pub fn start(&self) -> Result<Row, AllocError>
        ensures same { IfOk result (λ row. plain_state self.now.grounds.atoms row
            ≡ state_of self.now.problem.now) }
        ensures wide { IfOk result (λ row. length row.flags ≡ length self.now.grounds.atoms) }
    {
        let facts = self.problem.facts()?;
        let values = self.problem.values()?;
        Row::of(self.alloc, &self.grounds.atoms, &facts, &values)
    }

    /// Whether a row meets the goal.
    pub fn is_good(&self, row: &Row) -> bool
        ensures { result ≡ is_good self.now.expert.now self.now.problem.now self.now.goal.now
            (plain_state self.now.grounds.atoms row.now) }
    {
        self.passes(row, &self.test)
    }

    /// Whether a ground action, which stands at this place, needs not be tried where the one at another place led last: it stands
    /// before that one, and they are independent, so that what it leads to was met by the other order.
    pub fn is_pruned(&self, last: Option<u32>, place: u32, action: &Prepared) -> bool
        ensures { result ≡ is_pruned self.now.grounds.actions.items last place action.now }
    {
        let Some(last) = last else {
            return false;
        };
        if place >= last {
            return false;
        }
        match self.grounds.actions.get(last as usize) {
            Some(before) => before.footprint.is_independent(&action.footprint),
            None => false,
        }
    }

    /// Puts the act of the ground action at a place at the end, if there is one.
    fn push_act(&self, place: u32, acts: &mut Seq<Act>) -> Result<(), AllocError>
        ensures { OnOk result (acts.new
            ≡ acts.old ++ acts_at self.now.grounds.actions.items (place ∷ [])) }
    {
        match self.grounds.actions.get(place as usize) {
            Some(action) => acts.push(action.act),
            None => Ok(()),
        }
    }

    /// The acts of the ground actions at these places.
    pub fn acts_at(&self, places: &[u32]) -> Result<Seq<Act>, AllocError>
        ensures { IfOk result (λ acts. acts ≡ acts_at self.now.grounds.actions.items places.now) }
    {
        let mut acts = Seq::new(self.alloc);
        for place in places {
            self.push_act(*place, &mut acts)?;
        }
        Ok(acts)
    }
}
