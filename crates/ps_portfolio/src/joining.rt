//! Three planners at once.
ghost use Rattle.std.specs.Prelude.{◌≡◌, ◌≤◌, [], ◌∷◌, All, IfOk, IsSome};
ghost use Rattle.ps_greedy.specs.Laws.{IsSoundAnswer};
ghost use Rattle.ps_portfolio.specs.Choosing.{best_of};

use super::choosing::best_of;
use super::planning::Planner;
use ps_domain::Expert;
use ps_greedy::Found;
use ps_problem::Problem;
use ps_world::Seq;
use std::alloc::{AllocError, Global};
use std::thread;
use std::thread::Threads;

/// What planners answered, and the place of the best of these answers.
#[derive(Drop)]
pub struct Chosen {
    pub answers: Seq<Found>,
    pub best: u32,
}

/// These three answers, and which is the best.
fn choose(alloc: Global, first: Found, second: Found, third: Found) -> Result<Chosen, AllocError>
    ensures answers { IfOk result (λ chosen. chosen.answers ≡ first ∷ second ∷ third ∷ []) }
    ensures best { IfOk result (λ chosen. chosen.best ≡ best_of chosen.answers) }
{
    let mut answers = Vec::with_capacity(alloc, 3)?;
    answers.push(first)?;
    answers.push(second)?;
    answers.push(third)?;
    let best = best_of(&answers) as u32;
    Ok(Chosen {
        answers: Seq::of(answers),
        best,
    })
}

/// A question that can be asked.
trait Asks {
    ghost use Rattle.ps_greedy.specs.declared.found.Found.{Found as FoundView};

    ghost may: { Self → Type 0 };

    ghost says: { Self → FoundView };

    ghost right: { Self → FoundView → Type 0 };

    /// The answer.
    fn ask(&self) -> Result<Found, AllocError>
        requires { may self.now }
        ensures { IfOk result (λ f. (f ≡ says self.now) × right self.now f) };
}

/// A planner, and what it is asked.
#[derive(Drop)]
struct Asked<'a, P: Planner> {
    alloc: Global,
    planner: &'a P,
    expert: &'a Expert,
    problem: &'a Problem,
    budget: u32,
}

impl<'a, P: Planner> Asks for Asked<'a, P> {
    ghost use Rattle.std.specs.Prelude.{◌≤◌, IsSome};
    ghost use Rattle.ps_greedy.specs.Laws.{IsSoundAnswer};

    ghost may = { λ q. IsSome q.problem.now.goal × (1 ≤ q.budget) };

    ghost says = { λ q. P.says q.planner.now q.expert.now q.problem.now q.budget };

    ghost right = { λ q f. IsSoundAnswer q.expert.now q.problem.now f };

    fn ask(&self) -> Result<Found, AllocError> {
        self.planner
            .plan(self.alloc, self.expert, self.problem, self.budget)
    }
}

/// The answers to two questions, each in a thread of its own if there are threads.
fn ask_both<R: Threads + Sync, Y: Asks + Sync, Z: Asks + Sync>(
    rt: &R,
    y: &Y,
    z: &Z,
) -> (Result<Found, AllocError>, Result<Found, AllocError>)
    requires first { Y.may y.now }
    requires second { Z.may z.now }
    ensures first { IfOk result.0 (λ f. (f ≡ Y.says y.now) × Y.right y.now f) }
    ensures second { IfOk result.1 (λ f. (f ≡ Z.says z.now) × Z.right z.now f) }
{
    let first = || -> Result<Found, AllocError>
        requires { Y.may y.now }
        ensures { IfOk result (λ f. (f ≡ Y.says y.entry.now) × Y.right y.entry.now f) }
    { y.ask() };
    let second = || -> Result<Found, AllocError>
        requires { Z.may z.now }
        ensures { IfOk result (λ f. (f ≡ Z.says z.entry.now) × Z.right z.entry.now f) }
    { z.ask() };
    thread::join(rt, first, second)
}

/// The answers to three questions, each in a thread of its own if there are threads, and the place of the best.
fn ask_all<R: Threads + Sync, X: Asks + Sync, Y: Asks + Sync, Z: Asks + Sync>(
    rt: &R,
    alloc: Global,
    x: &X,
    y: &Y,
    z: &Z,
) -> Result<Chosen, AllocError>
    requires first { X.may x.now }
    requires second { Y.may y.now }
    requires third { Z.may z.now }
    ensures answers { IfOk result (λ chosen. chosen.answers
        ≡ X.says x.now ∷ Y.says y.now ∷ Z.says z.now ∷ []) }
    ensures best { IfOk result (λ chosen. chosen.best ≡ best_of chosen.answers) }
    ensures right { IfOk result (λ chosen. X.right x.now (X.says x.now)
        × Y.right y.now (Y.says y.now) × Z.right z.now (Z.says z.now)) }
{
    let first = || -> Result<Found, AllocError>
        requires { X.may x.now }
        ensures { IfOk result (λ f. (f ≡ X.says x.entry.now) × X.right x.entry.now f) }
    { x.ask() };
    let others = || -> (Result<Found, AllocError>, Result<Found, AllocError>)
        requires { Y.may y.now × Z.may z.now }
        ensures { IfOk result.0 (λ f. (f ≡ Y.says y.entry.now) × Y.right y.entry.now f)
            × IfOk result.1 (λ f. (f ≡ Z.says z.entry.now) × Z.right z.entry.now f) }
    { ask_both(rt, y, z) };
    let (first, (second, third)) = thread::join(rt, first, others);
    choose(alloc, first?, second?, third?)
}

/// What three planners answer, each in a thread of its own if there are threads, and the place of the best: of the shortest plan, the
/// first at a tie; where there is no plan, of the first that says that none is good; else 0. The answers are those that the planners
/// give one after another, and each is sound.
pub fn portfolio<R: Threads + Sync, A: Planner + Sync, B: Planner + Sync, C: Planner + Sync>(
    rt: &R,
    alloc: Global,
    a: &A,
    b: &B,
    c: &C,
    expert: &Expert,
    problem: &Problem,
    budget: u32,
) -> Result<Chosen, AllocError>
    requires goal { IsSome problem.now.goal }
    requires budget { 1 ≤ budget }
    ensures answers { IfOk result (λ chosen. chosen.answers
        ≡ A.says a.now expert.now problem.now budget
        ∷ B.says b.now expert.now problem.now budget
        ∷ C.says c.now expert.now problem.now budget ∷ []) }
    ensures best { IfOk result (λ chosen. chosen.best ≡ best_of chosen.answers) }
    ensures sound { IfOk result (λ chosen. IsSoundAnswer expert.now problem.now
        (A.says a.now expert.now problem.now budget)
        × IsSoundAnswer expert.now problem.now (B.says b.now expert.now problem.now budget)
        × IsSoundAnswer expert.now problem.now (C.says c.now expert.now problem.now budget)) }
{
    let x = Asked {
        alloc,
        planner: a,
        expert,
        problem,
        budget,
    };
    let y = Asked {
        alloc,
        planner: b,
        expert,
        problem,
        budget,
    };
    let z = Asked {
        alloc,
        planner: c,
        expert,
        problem,
        budget,
    };
    ask_all(rt, alloc, &x, &y, &z)
}
