//! One line of the terminal, with the run that it opens.
ghost use Rattle.std.specs.Prelude.{◌≡◌, true, IfOk, None, OnOk};
ghost use Rattle.ps_rules.specs.Runs.{is_running};
ghost use Rattle.ps_board.specs.Board.{IsAtRest};
ghost use Rattle.ps_pool.specs.Workers.{EndedBy};
ghost use Rattle.ps_session.specs.Lines.{acts_in, Advances, IsIdle};
ghost use Rattle.ps_session.specs.Session.{AreTurns};
ghost use Rattle.ps_session.specs.declared.ways.Turns.TheVariants.{InOrder, Workers};

use super::ways::Turns;
use ps_action::Act;
use ps_board::{Board, Step};
use ps_domain::Expert;
use ps_plan::Solver;
use ps_pool::{Gate, RunStop, go_on, run_workers};
use ps_text::Names;
use ps_world::Seq;
use std::alloc::{AllocError, Global};
use std::sync::Wait;
use std::thread::Threads;

/// What a session has beside its board: the names of its texts, the domain of its input, who finds its plans, who is told of its units of
/// work, and how the members of its runs take turns.
#[derive(Drop)]
pub struct Session<'a, S: Solver, G: Gate> {
    pub names: &'a Names,
    pub expert: &'a Expert,
    pub solver: &'a S,
    pub gate: &'a G,
    pub turns: Turns,
}

/// What came of going on by a line.
#[derive(Drop)]
pub struct Advanced {
    /// The place of the first entry that came: the end of the journal where no line was left.
    pub from: usize,
    /// The plan that answers the line, where it asks for one.
    pub plan: Option<Seq<Act>>,
}

/// Going on by a line that asks for no plan.
fn without_plan(from: usize) -> Advanced
    ensures { result ≡ record { from = from; plan = None } }
{
    Advanced { from, plan: None }
}

impl Advanced {
    /// The plan that answers the line, or no act.
    pub fn acts(&self) -> &[Act]
        ensures { result.now ≡ acts_in self.now.plan }
    {
        match &self.plan {
            Some(acts) => acts.as_slice(),
            None => &[],
        }
    }
}

/// Answers the next line, if one is left, and goes on by turns in order with the run that it opens until that is over. It promises no
/// return. On an error the run may be open.
pub fn advance<R: Wait, S: Solver, G: Gate>(
    rt: &R,
    board: &mut Board,
    solver: &S,
    gate: &G,
) -> Result<Advanced, AllocError>
    requires idle { IsIdle board.old.input board.old }
    ensures { IfOk result
        (Advances InOrder (S.says solver.now) board.old.input board.old board.new) }
{
    let from = board.entries().len();
    match board.command(solver)? {
        Step::End => Ok(without_plan(from)),
        Step::Said => Ok(without_plan(from)),
        Step::Planned(acts) => Ok(Advanced {
            from,
            plan: Some(acts),
        }),
        Step::Opened => {
            go_on(rt, board, solver, gate)?;
            Ok(without_plan(from))
        }
    }
}

impl<'a, S: Solver + Sync, G: Gate + Sync> Session<'a, S, G> {
    /// Answers the next line, as `advance` does, on a board that is handed on.
    fn advance_in_order<R: Wait>(
        &self,
        rt: &R,
        mut board: Board,
    ) -> (Board, Result<Advanced, AllocError>)
        requires idle { IsIdle board.input board }
        ensures { IfOk result.1
            (Advances InOrder (S.says self.now.solver.now) board.input board result.0) }
    {
        let came = advance(rt, &mut board, self.solver, self.gate);
        (board, came)
    }

    /// Has workers go on with the open run until it is over, whose first entry is at this place. On an error the run may be open.
    fn work_on<R: Threads + Wait + Sync>(
        &self,
        rt: &R,
        alloc: Global,
        board: Board,
        workers: u8,
        from: usize,
    ) -> (Board, Result<Advanced, AllocError>)
        requires opened { is_running board.entries ≡ true }
        requires rest { IsAtRest board }
        requires expert { self.now.expert.now ≡ board.input.domain }
        requires workers { AreTurns (Workers workers) }
        ensures came { IfOk result.1 (λ a. a ≡ record { from = from; plan = None }) }
        ensures ended { OnOk result.1
            (EndedBy workers board.input board.entries result.0.entries) }
        ensures rest { OnOk result.1 (IsAtRest result.0) }
        ensures input { result.0.input ≡ board.input }
    {
        match run_workers(
            rt,
            alloc,
            board,
            self.expert,
            self.solver,
            self.gate,
            workers,
        ) {
            Ok(board) => (board, Ok(without_plan(from))),
            Err(RunStop { board }) => (board, Err(AllocError)),
        }
    }

    /// Answers the next line, if one is left, and has workers go on with the run that it opens until that is over. It promises no return.
    /// On an error the run may be open.
    fn advance_by_workers<R: Threads + Wait + Sync>(
        &self,
        rt: &R,
        alloc: Global,
        mut board: Board,
        workers: u8,
    ) -> (Board, Result<Advanced, AllocError>)
        requires idle { IsIdle board.input board }
        requires expert { self.now.expert.now ≡ board.input.domain }
        requires workers { AreTurns (Workers workers) }
        ensures { IfOk result.1
            (Advances (Workers workers) (S.says self.now.solver.now) board.input board result.0) }
    {
        let from = board.entries().len();
        let step = board.command(self.solver);
        match step {
            Ok(step) => match step {
                Step::End => (board, Ok(without_plan(from))),
                Step::Said => (board, Ok(without_plan(from))),
                Step::Planned(acts) => {
                    let plan = Some(acts);
                    (board, Ok(Advanced { from, plan }))
                }
                Step::Opened => self.work_on(rt, alloc, board, workers, from),
            },
            Err(AllocError) => (board, Err(AllocError)),
        }
    }

    /// Answers the next line, if one is left, and goes on with the run that it opens until that is over. It promises no return. On an error
    /// the run may be open.
    pub fn advance<R: Threads + Wait + Sync>(
        &self,
        rt: &R,
        alloc: Global,
        board: Board,
    ) -> (Board, Result<Advanced, AllocError>)
        requires idle { IsIdle board.input board }
        requires expert { self.now.expert.now ≡ board.input.domain }
        requires turns { AreTurns self.now.turns }
        ensures { IfOk result.1
            (Advances self.now.turns (S.says self.now.solver.now) board.input board result.0) }
    {
        match self.turns {
            Turns::InOrder => self.advance_in_order(rt, board),
            Turns::Workers(workers) => self.advance_by_workers(rt, alloc, board, workers),
        }
    }
}
