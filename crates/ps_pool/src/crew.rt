//! What one worker does with its seat.
ghost use Rattle.std.specs.Prelude.{◌≡◌, ◌==◌, ◌+◌, ◌%◌, ◌≤◌, None, IfOk, IfSome, OnErr};
ghost use Rattle.ps_pool.specs.declared.round_place.Stand.TheVariants.{Failed, Going};
ghost use Rattle.ps_pool.specs.Rounds.{IsWanted};
ghost use Rattle.ps_pool.specs.Workers.{HasLeft, HasStayed, IsCrew, IsDue, IsReady, IsThere, MayWork, StandsAfter, StepsAside, StepsFor};

use crate::gate::Gate;
use crate::holds::{answer, halt, hand_in, take_tick, take_turn};
use crate::lead::Lead;
use crate::outline::Who;
use crate::round_place::{OutsideWork, RoundPlace, Stand, Step, noted};
use crate::searches::Searches;
use ps_board::{Board, Snapshot, Ticked, Turn};
use ps_domain::Expert;
use ps_plan::Solver;
use ps_turn::{Seat, TurnBook};
use std::alloc::AllocError;
use std::sync::Wait;

/// What all workers of a run know.
#[derive(Drop)]
pub(crate) struct Crew<'a, S: Solver, G: Gate> {
    pub(crate) members: &'a [Who],
    pub(crate) expert: &'a Expert,
    pub(crate) solver: &'a S,
    pub(crate) gate: &'a G,
    pub(crate) budget: u32,
    pub(crate) workers: usize,
    pub(crate) lead: Lead,
    pub(crate) searches: Searches,
}

impl<'a, S: Solver, G: Gate> Crew<'a, S, G> {
    /// Whether the member at this place is an own member of the worker of this hand.
    fn is_own_member(&self, place: usize, hand: u8) -> bool
        requires { 1 ≤ self.now.workers }
        ensures { result ≡ (place % self.now.workers + 1 == hand) }
    {
        place % self.workers + 1 == usize::from(hand)
    }

    /// Takes the turn of a member. What is then to be done aside is put into `due`, so that each step hands on little.
    fn do_member<R: Wait>(
        &self,
        rt: &R,
        book: &TurnBook<Board>,
        seat: &mut Seat<Board>,
        who: Who,
        due: &mut Option<OutsideWork>,
    ) -> Result<Step, AllocError>
        requires none { due.old ≡ None }
        requires seat { MayWork book.now seat.old }
        requires there { IsThere book.now.input who }
        ensures due { IfSome due.new (IsDue book.now.input seat.new.seen) }
        ensures goes { IfOk result (λ step. StandsAfter step seat.new.seen Going) }
        ensures err { OnErr result (due.new ≡ None) }
        ensures seat { HasStayed book.now seat.old seat.new }
    {
        match take_turn(rt, book, seat, who)? {
            Turn::Work(grant) => {
                *due = Some(OutsideWork::Unit(grant));
                Ok(Step::Did)
            }
            Turn::Did => Ok(Step::Did),
            Turn::Nothing => Ok(Step::Nothing),
        }
    }

    /// Takes the turn of the ticker. Where a plan is wanted and as many look for one as may, there is nothing to do.
    fn tick<R: Wait>(
        &self,
        rt: &R,
        book: &TurnBook<Board>,
        seat: &mut Seat<Board>,
        round_place: &mut RoundPlace,
        due: &mut Option<OutsideWork>,
    ) -> Result<Step, AllocError>
        requires none { due.old ≡ None }
        requires ready { IsReady book.now seat.old round_place.old.stand }
        ensures due { IfSome due.new (StepsFor book.now.input seat.new.seen round_place.new.stand) }
        ensures stand { IfOk result (λ step. StandsAfter step seat.new.seen round_place.new.stand) }
        ensures err { OnErr result (due.new ≡ None) }
        ensures seat { HasStayed book.now seat.old seat.new }
    {
        match take_tick(rt, book, seat)? {
            Ticked::Over(_) => {
                round_place.stand = Stand::Over;
                Ok(Step::Left)
            }
            Ticked::Halted => {
                round_place.stand = Stand::Halted;
                Ok(Step::Left)
            }
            Ticked::Did => Ok(Step::Did),
            Ticked::Nothing => Ok(Step::Nothing),
            Ticked::WantsPlan(snapshot) => {
                if self.searches.begin(rt) {
                    *due = Some(OutsideWork::Search(snapshot));
                    Ok(Step::Did)
                } else {
                    Ok(Step::Nothing)
                }
            }
        }
    }

    /// Takes the next turn of a round, where there is one: of the member here, if it is the worker's own or isn't,
    /// as the part of the round has it, or else of the ticker.
    fn take_next<R: Wait>(
        &self,
        rt: &R,
        book: &TurnBook<Board>,
        seat: &mut Seat<Board>,
        round_place: &mut RoundPlace,
        due: &mut Option<OutsideWork>,
    ) -> Result<Step, AllocError>
        requires none { due.old ≡ None }
        requires ready { IsReady book.now seat.old round_place.old.stand }
        requires crew { IsCrew book.now.input self.now.members.now self.now.expert.now
            self.now.budget self.now.workers }
        ensures due { IfSome due.new (StepsFor book.now.input seat.new.seen round_place.new.stand) }
        ensures stand { IfOk result (λ step. StandsAfter step seat.new.seen round_place.new.stand) }
        ensures err { OnErr result (due.new ≡ None) }
        ensures seat { HasStayed book.now seat.old seat.new }
    {
        let place = round_place.place;
        if place < self.members.len() {
            round_place.place = place + 1;
            if self.is_own_member(place, seat.hand()) == round_place.own_members {
                self.do_member(rt, book, seat, self.members[place], due)
            } else {
                Ok(Step::Nothing)
            }
        } else if round_place.own_members {
            round_place.own_members = false;
            round_place.place = 0;
            self.tick(rt, book, seat, round_place, due)
        } else {
            round_place.own_members = true;
            round_place.place = 0;
            Ok(Step::Ended)
        }
    }

    /// Goes one step on in a round in which nothing was done so far or something was. After a round in vain it rests,
    /// while somebody is aside.
    fn do_step<R: Wait>(
        &self,
        rt: &R,
        book: &TurnBook<Board>,
        seat: &mut Seat<Board>,
        round_place: &mut RoundPlace,
        due: &mut Option<OutsideWork>,
        idle: bool,
    ) -> Result<Step, AllocError>
        requires none { due.old ≡ None }
        requires ready { IsReady book.now seat.old round_place.old.stand }
        requires crew { IsCrew book.now.input self.now.members.now self.now.expert.now
            self.now.budget self.now.workers }
        ensures due { IfSome due.new (StepsFor book.now.input seat.new.seen round_place.new.stand) }
        ensures stand { IfOk result (λ step. StandsAfter step seat.new.seen round_place.new.stand) }
        ensures failed { OnErr result (round_place.new.stand ≡ Failed) }
        ensures seat { HasStayed book.now seat.old seat.new }
    {
        match self.take_next(rt, book, seat, round_place, due) {
            Ok(step) => {
                if let (Step::Ended, true) = (step, idle) {
                    self.lead.rest(rt);
                }
                Ok(step)
            }
            Err(AllocError) => {
                round_place.stand = Stand::Failed;
                Err(AllocError)
            }
        }
    }

    /// Does rounds until something is to be done aside, or until the run is seen to be over or halted. Where memory runs
    /// out it halts the run, which it then sees.
    fn do_rounds<R: Wait>(
        &self,
        rt: &R,
        book: &TurnBook<Board>,
        seat: &mut Seat<Board>,
        round_place: &mut RoundPlace,
    ) -> Option<OutsideWork>
        requires ready { IsReady book.now seat.old round_place.old.stand }
        requires crew { IsCrew book.now.input self.now.members.now self.now.expert.now
            self.now.budget self.now.workers }
        ensures aside { StepsAside book.now.input result seat.new.seen round_place.new.stand }
        ensures seat { HasStayed book.now seat.old seat.new }
    {
        let mut idle = false;
        let mut due = None;
        for _ in rt.forever() {
            let step = self.do_step(rt, book, seat, round_place, &mut due, idle);
            if due.is_some() {
                return due;
            }
            match step {
                Ok(Step::Left) => return None,
                Ok(Step::Did) => idle = false,
                Ok(Step::Ended) => idle = true,
                Ok(Step::Nothing) => {}
                Err(AllocError) => halt(rt, book, seat, round_place),
            }
        }
        unreachable!()
    }

    /// Waits for the lead, and does rounds with it.
    pub(crate) fn lead_on<R: Wait>(
        &self,
        rt: &R,
        book: &TurnBook<Board>,
        seat: &mut Seat<Board>,
        round_place: &mut RoundPlace,
    ) -> Option<OutsideWork>
        requires ready { IsReady book.now seat.old round_place.old.stand }
        requires crew { IsCrew book.now.input self.now.members.now self.now.expert.now
            self.now.budget self.now.workers }
        ensures aside { StepsAside book.now.input result seat.new.seen round_place.new.stand }
        ensures seat { HasStayed book.now seat.old seat.new }
    {
        self.lead.take(rt);
        let aside = self.do_rounds(rt, book, seat, round_place);
        if aside.is_some() {
            self.lead.step_aside(rt);
        } else {
            self.lead.leave(rt);
        }
        aside
    }

    /// Does what is to be done aside, and hands it in.
    fn do_aside<R: Wait>(
        &self,
        rt: &R,
        book: &TurnBook<Board>,
        seat: &mut Seat<Board>,
        aside: OutsideWork,
    ) -> Result<(), AllocError>
        requires seat { MayWork book.now seat.old }
        requires due { IsDue book.now.input seat.old.seen aside }
        requires crew { IsCrew book.now.input self.now.members.now self.now.expert.now
            self.now.budget self.now.workers }
        ensures { HasStayed book.now seat.old seat.new }
    {
        match aside {
            OutsideWork::Unit(grant) => {
                self.gate.unit(rt, &grant);
                hand_in(rt, book, seat, grant)
            }
            OutsideWork::Search(snapshot) => {
                let answered = self.answer_wanted(rt, book, seat, snapshot);
                self.searches.end(rt);
                answered
            }
        }
    }

    /// Asks the solver between turns, and hands its answer in.
    fn answer_wanted<R: Wait>(
        &self,
        rt: &R,
        book: &TurnBook<Board>,
        seat: &mut Seat<Board>,
        snapshot: Snapshot,
    ) -> Result<(), AllocError>
        requires seat { MayWork book.now seat.old }
        requires asked { IsWanted book.now.input seat.old.seen snapshot }
        requires crew { IsCrew book.now.input self.now.members.now self.now.expert.now
            self.now.budget self.now.workers }
        ensures { HasStayed book.now seat.old seat.new }
    {
        let problem = snapshot.problem.get();
        let alloc = problem.allocator();
        let found = self.solver.solve(alloc, self.expert, problem, self.budget)?;
        answer(rt, book, seat, snapshot, found)
    }

    /// Does what is to be done aside, and goes on with rounds until there is such again, or until the run is seen to be
    /// over or halted.
    fn work_once<R: Wait>(
        &self,
        rt: &R,
        book: &TurnBook<Board>,
        seat: &mut Seat<Board>,
        round_place: &mut RoundPlace,
        aside: OutsideWork,
    ) -> Option<OutsideWork>
        requires ready { IsReady book.now seat.old round_place.old.stand }
        requires due { IsDue book.now.input seat.old.seen aside }
        requires crew { IsCrew book.now.input self.now.members.now self.now.expert.now
            self.now.budget self.now.workers }
        ensures aside { StepsAside book.now.input result seat.new.seen round_place.new.stand }
        ensures seat { HasStayed book.now seat.old seat.new }
    {
        let done = self.do_aside(rt, book, seat, aside);
        if let Err(AllocError) = noted(round_place, done) {
            halt(rt, book, seat, round_place);
        }
        self.lead.come_back(rt);
        self.lead_on(rt, book, seat, round_place)
    }

    /// Does what is to be done aside, if anything, and then rounds until there is such again, and so on until the run is
    /// seen to be over or halted.
    pub(crate) fn work_on<R: Wait>(
        &self,
        rt: &R,
        book: &TurnBook<Board>,
        seat: &mut Seat<Board>,
        round_place: &mut RoundPlace,
        aside: Option<OutsideWork>,
    )
        requires seat { MayWork book.now seat.old }
        requires aside { StepsAside book.now.input aside seat.old.seen round_place.old.stand }
        requires crew { IsCrew book.now.input self.now.members.now self.now.expert.now
            self.now.budget self.now.workers }
        ensures left { HasLeft seat.new.seen round_place.new.stand }
        ensures seat { HasStayed book.now seat.old seat.new }
    {
        let mut next = aside;
        for _ in rt.forever() {
            let Some(aside) = next else { return };
            next = self.work_once(rt, book, seat, round_place, aside);
        }
        unreachable!()
    }
}
