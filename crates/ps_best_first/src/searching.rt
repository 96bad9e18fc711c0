//! The search.
ghost use Rattle.std.specs.Prelude.{◌≡◌, ◌<◌, ◌≤◌, ◌+◌, ◌∷◌, ◌++◌, [], ℕ, None, suc, false, drop, if◌then◌else◌, length, map, nat_eq, slice_get, unwrap_or, IfOk, IfSome, IsSome, OnOk, Some};
ghost use Rattle.std.specs.List.{list_any};
ghost use Rattle.ps_action.specs.Plans.{most_acts};
ghost use Rattle.ps_action.specs.Search.{possible_acts};
ghost use Rattle.ps_ground.specs.Goals.{is_good};
ghost use Rattle.ps_ground.specs.States.{at, state_of};
ghost use Rattle.ps_solve.specs.Stores.{node_at, nodes_in};
ghost use Rattle.ps_greedy.specs.Greedy.{first_spot, greedy, greedy_from, greedy_to, missing_in};
ghost use Rattle.ps_greedy.specs.declared.found.Found.TheVariants.{NoPlan, Spent};
ghost use Rattle.ps_best_first.specs.Leaves.{is_open};
ghost use Rattle.ps_best_first.specs.Search.{IsSearch, found_from, leaf_of};

use super::leaves::{Leaf, Leaves};
use ps_action::is_true;
use ps_domain::Expert;
use ps_greedy::Found;
use ps_problem::Problem;
use ps_solve::{Reached, Task};
use ps_world::{Duplicate, Fact, Seq};
use std::alloc::{AllocError, Global};

/// Those of these marks that aren't known in the state at a place.
fn left(
    task: &Task,
    reached: &Reached,
    place: usize,
    marks: &[Fact],
) -> Result<Seq<Fact>, AllocError>
    requires { place < length reached.now }
    ensures { IfOk result (λ left. left ≡ missing_in
        (at task.now.problem.now (node_at task.now reached.now place).state) marks.now) }
{
    let mut left = Seq::new(task.alloc);
    for mark in marks {
        if !task.is_known(reached, place, mark) {
            left.push(*mark)?;
        }
    }
    Ok(left)
}

/// Takes in the states that were reached last, to each of which so many acts lead, where these marks were missing before.
fn take_in(
    task: &Task,
    reached: &Reached,
    depth: u32,
    marks: &[Fact],
    leaves: &mut Leaves,
) -> Result<(), AllocError>
    requires { length leaves.old ≤ length reached.now }
    ensures { OnOk result (leaves.new ≡ leaves.old ++ map
        (leaf_of task.now.problem.now depth marks.now)
        (drop (length leaves.old) (nodes_in task.now reached.now))) }
{
    for place in leaves.len()..reached.len() {
        let missing = left(task, reached, place, marks)?;
        leaves.push(Leaf {
            depth,
            missing,
            expanded: false,
        })?;
    }
    Ok(())
}

/// Takes in the states that were reached last, to which the node at a place led.
fn take_after(
    task: &Task,
    reached: &Reached,
    place: usize,
    leaves: &mut Leaves,
) -> Result<(), AllocError>
    requires within { place < length leaves.old }
    requires few { length leaves.old ≤ length reached.now }
    requires short { IfSome (slice_get leaves.old place) (λ l. l.depth < most_acts) }
    ensures { OnOk result (IfSome (slice_get leaves.old place) (λ l. leaves.new
        ≡ leaves.old ++ map (leaf_of task.now.problem.now (l.depth + 1) l.missing)
        (drop (length leaves.old) (nodes_in task.now reached.now)))) }
{
    let leaf = leaves.at(place);
    let depth = leaf.depth + 1;
    let marks = leaf.missing.copy(task.alloc)?;
    take_in(task, reached, depth, marks.as_slice(), leaves)
}

/// What is found where no node can be expanded.
fn ended(leaves: &Leaves) -> Found
    ensures { result ≡ (if list_any (λ l. nat_eq l.depth most_acts) leaves.now then Spent
        else NoPlan) }
{
    if leaves.has_last() {
        Found::Spent
    } else {
        Found::NoPlan
    }
}

/// Expands the next node, and answers what is found, if the search ends.
fn step(
    task: &Task,
    budget: u32,
    reached: &mut Reached,
    leaves: &mut Leaves,
) -> Result<Option<Found>, AllocError>
    requires { IsSearch task.now budget reached.old leaves.old }
    ensures found { IfOk result (λ found. (more : ℕ)
        → found_from task.now budget (suc more) reached.old leaves.old
        ≡ unwrap_or found (found_from task.now budget more reached.new leaves.new)) }
    ensures search { IfOk result (λ found. found ≡ None
        → IsSearch task.now budget reached.new leaves.new) }
{
    let Some(place) = leaves.take() else {
        return Ok(Some(ended(leaves)));
    };
    if let Some(acts) = task.expand(place as u32, budget, reached)? {
        return Ok(Some(Found::Plan(acts)));
    }
    if reached.len() >= budget as usize {
        return Ok(Some(Found::Spent));
    }
    take_after(task, reached, place, leaves)?;
    Ok(None)
}

/// What is found where the goal isn't met at once.
fn search(task: &Task, marks: &[Fact], budget: u32) -> Result<Found, AllocError>
    requires bad { is_good task.now.expert.now task.now.problem.now task.now.goal.now
        (state_of task.now.problem.now) ≡ false }
    requires budget { 1 ≤ budget }
    ensures { IfOk result (λ found. found ≡ greedy_from task.now.expert.now
        (possible_acts task.now.expert.now task.now.problem.now) task.now.goal.now budget budget
        (first_spot task.now.problem.now marks.now ∷ [])) }
{
    let mut reached = task.begin()?;
    let mut leaves = Leaves::new(task.alloc);
    take_in(task, &reached, 0, marks, &mut leaves)?;
    for _done in 0..budget {
        if let Some(found) = step(task, budget, &mut reached, &mut leaves)? {
            return Ok(found);
        }
    }
    Ok(Found::Spent)
}

/// What is found for a task.
fn found(task: &Task, marks: &[Fact], budget: u32) -> Result<Found, AllocError>
    requires { 1 ≤ budget }
    ensures { IfOk result (λ found. found ≡ greedy_to task.now.expert.now task.now.problem.now
        budget marks.now (Some task.now.goal.now)) }
{
    if is_true(task.problem, task.expert, task.goal) {
        return Ok(Found::Plan(Seq::new(task.alloc)));
    }
    search(task, marks, budget)
}

/// What is found by a search that expands first what misses the fewest of these marks, where it may reach so many states.
pub fn best_first(
    alloc: Global,
    expert: &Expert,
    problem: &Problem,
    budget: u32,
    marks: &[Fact],
) -> Result<Found, AllocError>
    requires goal { IsSome problem.now.goal }
    requires budget { 1 ≤ budget }
    ensures { IfOk result (λ found. found ≡ greedy expert.now problem.now budget marks.now) }
{
    match Task::of(alloc, expert, problem)? {
        Some(task) => found(&task, marks, budget),
        None => Ok(Found::TooMany),
    }
}
