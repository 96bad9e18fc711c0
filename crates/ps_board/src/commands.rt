//! What answers the lines of the terminal.
ghost use Rattle.std.specs.Prelude.{◌≡◌, ◌≤◌, ◌+◌, false, length, IfOk, IsOk, IsSome, None, Some};
ghost use Rattle.ps_action.specs.Search.{Fits};
ghost use Rattle.ps_machine.specs.declared.inputs.Command.TheVariants.{Ask as AskLine, Edit as EditLine, Quit as QuitLine, Run as RunLine, RunAction as ActionLine, RunPlan as PlanLine};
ghost use Rattle.ps_machine.specs.declared.inputs.Line.TheVariants.{Bad, Good};
ghost use Rattle.ps_machine.specs.declared.inputs.Query.TheVariants.{Plan};
ghost use Rattle.ps_machine.specs.declared.journal.By.TheVariants.{Terminal};
ghost use Rattle.ps_machine.specs.declared.journal.Event.TheVariants.{Ask, Refused};
ghost use Rattle.ps_rules.specs.Lines.{answered, refusal_of_steps};
ghost use Rattle.ps_rules.specs.Sound.{IsSoundLine};
ghost use Rattle.ps_board.specs.Parts.{BoardStands};
ghost use Rattle.ps_board.specs.Commands.{AnswersAnyway, AnswersBy, asks_plan, IsNext, IsNextAnyway, IsNextBy, line_of, MayAnswer};

use super::whole::Parts;
use ps_action::{Act, Answer, PlanStep, PlanTextRefusal};
use ps_legal::{acts_of, ground_refusal, lacks_goal, refusal_of_query, refusal_of_steps};
use ps_machine::{By, Command, Event, Line, LineCause, Query, Refusal, RunKind};
use ps_plan::Solver;
use ps_world::{Duplicate, Edit, Seq};
use std::alloc::{AllocError, Global};

/// What the next line asks for.
#[derive(Drop)]
pub enum Next {
    /// No line is left.
    End,
    /// This edit is to be made, or to be refused.
    Edit(By, Edit),
    /// This event is to come.
    Event(Event),
    /// The query for a plan is to be answered, which is this.
    Plan(Seq<Act>),
}

impl Parts {
    /// The number of the line that is answered next, counted from 1.
    fn number(&self) -> u32
        requires stands { BoardStands self.now }
        requires left { IsSome (line_of self.now) }
        ensures { result ≡ answered self.now.entries.items + 1 }
    {
        self.state.ledger.lines.answered() as u32 + 1
    }

    /// The refusal of the next line.
    fn refuse(&self, why: Refusal) -> Event
        requires stands { BoardStands self.now }
        requires left { IsSome (line_of self.now) }
        ensures { result ≡ Refused (Terminal (answered self.now.entries.items + 1)) why }
    {
        let by = By::Terminal(self.number());
        Event::Refused { by, why }
    }

    /// What answers a line that isn't in form.
    fn answer_bad(&self, cause: LineCause) -> Event
        requires stands { BoardStands self.now }
        requires next { line_of self.now ≡ Some (Bad cause) }
        ensures { AnswersAnyway self.now result }
    {
        self.refuse(Refusal::Line(cause))
    }

    /// The edit that a line says.
    fn answer_edit(&self, alloc: Global, edit: &Edit) -> Result<Next, AllocError>
        requires stands { BoardStands self.now }
        requires next { line_of self.now ≡ Some (Good (EditLine edit.now)) }
        ensures { IfOk result (IsNextAnyway self.now) }
    {
        let by = By::Terminal(self.number());
        let edit = edit.copy(alloc)?;
        Ok(Next::Edit(by, edit))
    }

    /// What answers a query that isn't for a plan.
    fn answer_ask<S: Solver>(
        &self,
        alloc: Global,
        solver: &S,
        query: Query,
    ) -> Result<Event, AllocError>
        requires stands { BoardStands self.now }
        requires next { line_of self.now ≡ Some (Good (AskLine query)) }
        requires other { asks_plan (Ask query) ≡ false }
        ensures { IfOk result (AnswersAnyway self.now) }
    {
        let run = self.state.ledger.run.has_run();
        let why = refusal_of_query(
            alloc,
            solver,
            &self.state.expert,
            &self.state.problem,
            self.input.budget,
            run,
            query,
        )?;
        match why {
            Some(why) => Ok(self.refuse(why)),
            None => Ok(Event::Ask(query)),
        }
    }

    /// What answers the query for a plan, where there is a goal and the solver answers this.
    fn tell_plan(&self, answer: Answer) -> Next
        requires stands { BoardStands self.now }
        requires next { line_of self.now ≡ Some (Good (AskLine Plan)) }
        requires goal { IsSome self.now.state.problem.goal }
        requires fits { Fits self.now.state.expert self.now.state.problem
            self.now.input.budget answer }
        ensures { IsNextBy self.now answer result }
    {
        match answer {
            Answer::Plan(acts) => Next::Plan(acts),
            Answer::NoPlan => Next::Event(self.refuse(Refusal::NoPlan)),
            Answer::Spent { depth } => Next::Event(self.refuse(Refusal::Spent(depth))),
            Answer::TooMany => Next::Event(self.refuse(Refusal::TooMany)),
        }
    }

    /// What answers the query for a plan.
    fn answer_plan_query<S: Solver>(&self, alloc: Global, solver: &S) -> Result<Next, AllocError>
        requires stands { BoardStands self.now }
        requires next { line_of self.now ≡ Some (Good (AskLine Plan)) }
        ensures { IfOk result (IsNext (S.says solver.now) self.now) }
    {
        let expert = &self.state.expert;
        let problem = &self.state.problem;
        if lacks_goal(problem) {
            Ok(Next::Event(self.refuse(Refusal::NoGoal)))
        } else {
            let answer = solver.solve(alloc, expert, problem, self.input.budget)?;
            Ok(self.tell_plan(answer))
        }
    }

    /// What answers a query.
    fn answer_query<S: Solver>(
        &self,
        alloc: Global,
        solver: &S,
        query: Query,
    ) -> Result<Next, AllocError>
        requires stands { BoardStands self.now }
        requires next { line_of self.now ≡ Some (Good (AskLine query)) }
        ensures { IfOk result (IsNext (S.says solver.now) self.now) }
    {
        match query {
            Query::Plan => self.answer_plan_query(alloc, solver),
            _ => {
                let event = self.answer_ask(alloc, solver, query)?;
                Ok(Next::Event(event))
            }
        }
    }

    /// What answers the command to run for the goal, where there is one and the solver answers this.
    fn run_by(&self, answer: Answer) -> Event
        requires stands { BoardStands self.now }
        requires next { line_of self.now ≡ Some (Good RunLine) }
        requires goal { IsSome self.now.state.problem.goal }
        requires fits { Fits self.now.state.expert self.now.state.problem
            self.now.input.budget answer }
        ensures { AnswersBy self.now answer result }
    {
        match answer {
            Answer::Plan(acts) => Event::Run {
                kind: RunKind::Goal,
                acts,
            },
            Answer::NoPlan => self.refuse(Refusal::NoPlan),
            Answer::Spent { depth } => self.refuse(Refusal::Spent(depth)),
            Answer::TooMany => self.refuse(Refusal::TooMany),
        }
    }

    /// What answers the command to run for the goal.
    fn answer_run<S: Solver>(&self, alloc: Global, solver: &S) -> Result<Event, AllocError>
        requires stands { BoardStands self.now }
        requires next { line_of self.now ≡ Some (Good RunLine) }
        ensures { IfOk result (MayAnswer (S.says solver.now) self.now) }
    {
        let expert = &self.state.expert;
        let problem = &self.state.problem;
        if lacks_goal(problem) {
            Ok(self.refuse(Refusal::NoGoal))
        } else {
            let answer = solver.solve(alloc, expert, problem, self.input.budget)?;
            Ok(self.run_by(answer))
        }
    }

    /// What answers the command to run one act.
    fn answer_action(&self, alloc: Global, act: &Act) -> Result<Event, AllocError>
        requires stands { BoardStands self.now }
        requires next { line_of self.now ≡ Some (Good (ActionLine act.now)) }
        ensures { IfOk result (AnswersAnyway self.now) }
    {
        match ground_refusal(&self.state.expert, &self.state.problem, act) {
            Some(why) => Ok(self.refuse(why)),
            None => {
                let mut acts = Seq::new(alloc);
                acts.push(*act)?;
                let kind = RunKind::Action;
                Ok(Event::Run { kind, acts })
            }
        }
    }

    /// What answers the command to run the plan of a file.
    fn answer_plan(
        &self,
        alloc: Global,
        steps: &Result<Seq<PlanStep>, PlanTextRefusal>,
    ) -> Result<Event, AllocError>
        requires stands { BoardStands self.now }
        requires next { line_of self.now ≡ Some (Good (PlanLine steps.now)) }
        requires few { IfOk steps.now (λ plan. length plan ≤ 256) }
        ensures { IfOk result (AnswersAnyway self.now) }
    {
        match refusal_of_steps(alloc, &self.state.expert, &self.state.problem, steps)? {
            Some(why) => Ok(self.refuse(why)),
            None => self.run_steps(alloc, steps),
        }
    }

    /// What answers the command to run the plan of a file, where nothing refuses it.
    fn run_steps(
        &self,
        alloc: Global,
        steps: &Result<Seq<PlanStep>, PlanTextRefusal>,
    ) -> Result<Event, AllocError>
        requires stands { BoardStands self.now }
        requires next { line_of self.now ≡ Some (Good (PlanLine steps.now)) }
        requires few { IfOk steps.now (λ plan. length plan ≤ 256) }
        requires fine { refusal_of_steps self.now.state.expert self.now.state.problem steps.now
            ≡ None }
        ensures { IfOk result (AnswersAnyway self.now) }
    {
        match steps {
            Ok(plan) => {
                let acts = Seq::of(acts_of(alloc, plan.as_slice())?);
                let kind = RunKind::Plan;
                Ok(Event::Run { kind, acts })
            }
            Err(_) => unreachable!(),
        }
    }

    /// What answers this line.
    fn answer_line<S: Solver>(
        &self,
        alloc: Global,
        solver: &S,
        line: &Line,
    ) -> Result<Next, AllocError>
        requires stands { BoardStands self.now }
        requires next { line_of self.now ≡ Some line.now }
        requires sound { IsSoundLine line.now }
        ensures next { IfOk result (IsNext (S.says solver.now) self.now) }
        ensures reserved { line.now ≡ Good QuitLine → IsOk result }
    {
        match line {
            Line::Bad(cause) => Ok(Next::Event(self.answer_bad(*cause))),
            Line::Good(Command::Edit(edit)) => self.answer_edit(alloc, edit),
            Line::Good(Command::Ask(query)) => self.answer_query(alloc, solver, *query),
            Line::Good(Command::Run) => {
                let event = self.answer_run(alloc, solver)?;
                Ok(Next::Event(event))
            }
            Line::Good(Command::RunAction(act)) => {
                let event = self.answer_action(alloc, act)?;
                Ok(Next::Event(event))
            }
            Line::Good(Command::RunPlan(steps)) => {
                let event = self.answer_plan(alloc, steps)?;
                Ok(Next::Event(event))
            }
            Line::Good(Command::Quit) => Ok(Next::Event(Event::Quit)),
        }
    }

    /// What the next line asks for.
    pub fn next<S: Solver>(&self, alloc: Global, solver: &S) -> Result<Next, AllocError>
        requires { BoardStands self.now }
        ensures next { IfOk result (IsNext (S.says solver.now) self.now) }
        ensures reserved { line_of self.now ≡ Some (Good QuitLine) → IsOk result }
    {
        match self.state.next_line(&self.input) {
            Some(line) => self.answer_line(alloc, solver, line),
            None => Ok(Next::End),
        }
    }
}
