//! What of a session was refused or went wrong, entry by entry.
use super::tallies::Tally;
use ps_action::{Act, EffectRefusal, GroundAction, GroundRefusal, PlanRefusal, PlanTextRefusal};
use ps_domain::Expert;
use ps_eval::apply;
use ps_journal::push_after;
use ps_machine::{By, CancelWhy, Command, Entry, Event, FailWhy, Input, Line, Outcome, Refusal};
use ps_problem::Problem;
use ps_reasons::{
    Kind, PlanText, blamed_by_act, edit_of, ground_of, kind_of_edit, make, name_of, say_act,
    say_edit, say_effect, say_false_of, say_ground, say_how_set, say_meant, say_no_answer,
    say_performers, say_plan_fault, say_text_fault, spot_of_act, spot_of_edit,
};
use ps_remarks::{Origin, Page, Said, Source, Sources, part_of, say_bad_line};
use ps_text::Names;
use ps_world::{Edit, EditRefusal, Failure, Name, Spread};
use std::alloc::{AllocError, Global};

/// What the entries of a session are told by.
#[derive(Clone, Copy)]
pub struct Teller<'a> {
    pub alloc: Global,
    pub names: &'a Names,
    pub input: &'a Input,
    pub expert: &'a Expert,
    pub sources: &'a Sources,
    /// The plans of the script's lines that run one, each with the line's number.
    pub plans: &'a [(u32, PlanText)],
    /// The files of the members with their texts, in the order of the words.
    pub members: &'a [Source],
}

/// What is known after the entries so far, and the plan of the run that is open.
#[derive(Drop)]
pub struct Watch {
    pub problem: Problem,
    acts: Vec<Act>,
    /// The ground action of each act of the plan.
    grounds: Vec<Option<GroundAction>>,
    begun: Vec<bool>,
    /// Whether an act of the plan failed or was cancelled.
    went_wrong: bool,
    tally: Tally,
    /// The line that set the goal last.
    goal: Option<u32>,
    /// How many lines are answered.
    lines: u32,
}

/// Whether an event answers a line of the script.
fn answers_line(event: &Event) -> bool {
    matches!(
        event,
        Event::Edit {
            by: By::Terminal(_),
            ..
        } | Event::Refused {
            by: By::Terminal(_),
            ..
        } | Event::Ask(_)
            | Event::Run { .. }
            | Event::Quit
    )
}

impl Watch {
    /// What is known before the first entry, in a box, so that whoever owns it owns one part.
    pub fn new(alloc: Global, expert: &Expert) -> Result<Box<Watch>, AllocError> {
        let watch = Watch {
            problem: Problem::new(alloc, expert)?,
            acts: Vec::new(alloc),
            grounds: Vec::new(alloc),
            begun: Vec::new(alloc),
            went_wrong: false,
            tally: Tally::new(alloc),
            goal: None,
            lines: 0,
        };
        Ok(Box::new(alloc, watch)?)
    }

    /// The first act of the plan that hasn't begun, with its place.
    fn first_waiting(&self) -> Option<(usize, Act)> {
        let acts = self.acts.as_slice().iter();
        for (i, (act, is_begun)) in acts.zip(self.begun.as_slice()).enumerate() {
            if !*is_begun {
                return Some((i, *act));
            }
        }
        None
    }

    /// Whether the run that is open is blocked, where it is settled: no act of its plan went wrong, and one hasn't begun.
    fn is_blocked(&self) -> bool {
        !self.went_wrong && self.first_waiting().is_some()
    }

    /// The act at a place of the plan.
    fn act(&self, act: u32) -> Option<Act> {
        self.acts.as_slice().get(act as usize).copied()
    }

    /// Adds the ground action of each act of a plan.
    fn add_grounds(&mut self, expert: &Expert, acts: &[Act]) -> Result<(), AllocError> {
        for act in acts {
            let ground = ground_of(expert, &self.problem, act)?;
            self.grounds.push(ground)?;
        }
        Ok(())
    }

    /// Goes on with a plan.
    fn plan(&mut self, alloc: Global, expert: &Expert, acts: &[Act]) -> Result<(), AllocError> {
        self.begun = vec![in alloc; false; acts.len()]?;
        self.acts = Vec::from_slice(alloc, acts)?;
        self.grounds = Vec::new(alloc);
        self.went_wrong = false;
        self.add_grounds(expert, acts)
    }

    /// The ground action of the act at a place of the plan.
    fn ground(&self, act: usize) -> Option<&GroundAction> {
        match self.grounds.as_slice().get(act) {
            Some(Some(ground)) => Some(ground),
            _ => None,
        }
    }

    /// Makes the effects of an act's start.
    fn start(&mut self, expert: &Expert, act: u32) -> Result<(), AllocError> {
        if let Some(begun) = self.begun.get_mut(act as usize) {
            *begun = true;
        }
        match self.grounds.as_slice().get(act as usize) {
            Some(Some(ground)) => make(
                expert,
                &mut self.problem,
                ground.effects.at_start.as_slice(),
            ),
            _ => Ok(()),
        }
    }

    /// Makes the effects of an act's end.
    fn end(&mut self, expert: &Expert, act: u32) -> Result<(), AllocError> {
        match self.grounds.as_slice().get(act as usize) {
            Some(Some(ground)) => make(expert, &mut self.problem, ground.effects.at_end.as_slice()),
            _ => Ok(()),
        }
    }

    /// Takes one entry more.
    pub fn take(
        &mut self,
        alloc: Global,
        expert: &Expert,
        event: &Event,
    ) -> Result<(), AllocError> {
        if answers_line(event) {
            self.lines = self.lines.saturating_add(1);
        }
        self.tally.take(alloc, event)?;
        match event {
            Event::Edit { edit, .. } => match self.problem.edit(expert, edit) {
                Ok(_) | Err(Failure::Refused(_)) => Ok(()),
                Err(Failure::OutOfMemory) => Err(AllocError),
            },
            Event::Run { acts, .. } | Event::Replan(acts) => self.plan(
                alloc,
                expert,
                acts.as_slice(),
            ),
            Event::Start(act) => self.start(expert, *act),
            Event::End(act) => self.end(expert, *act),
            Event::Fail { .. } | Event::Cancel { .. } => {
                self.went_wrong = true;
                Ok(())
            }
            _ => Ok(()),
        }
    }
}

/// Says a cause in the words of the journal.
fn say_cause(names: &Names, why: &Refusal, page: &mut Page) -> Result<(), AllocError> {
    match why {
        Refusal::NoGoal => page.say("there is no goal"),
        Refusal::NoPlan => page.say("no plan reaches the goal"),
        Refusal::Spent(_) => page.say("no plan was found as far as was searched"),
        Refusal::TooMany => page.say("there are more than 50000 ground actions"),
        Refusal::NoRun => page.say("no run has been opened yet, so that there is no tree"),
        _ => push_after(b"", why, names, page.bytes()),
    }
}

/// Adds a sentence with a line and a caret under the byte of it at this place, or else under its first word.
fn mark_line(
    source: &Source,
    origin: Origin,
    place: Option<usize>,
    sentence: &[u8],
    page: &mut Page,
) -> Result<(), AllocError> {
    let line = part_of(source.text.as_slice(), origin.from, origin.to);
    let blanks = line
        .iter()
        .take_while(|byte| byte.is_ascii_whitespace())
        .count();
    let at = origin.from.saturating_add(place.unwrap_or(blanks));
    page.mark(source.file.as_str(), source.text.as_slice(), at, sentence)
}

/// What is said of how a run ended, or nothing where it succeeded.
fn end_words(outcome: Outcome) -> Option<&'static [u8]> {
    match outcome {
        Outcome::Success => None,
        Outcome::Act => Some(b"this run failed with its act"),
        Outcome::Blocked => Some(b"this run is blocked: nothing of it can go on"),
        Outcome::NoGoal => Some(b"this run ended: there is no goal any more"),
        Outcome::Replans => Some(b"this run ended: its plan may not be made anew once more"),
        Outcome::NoPlan => Some(b"this run ended: no plan reaches the goal any more"),
        Outcome::Spent(_) => Some(b"this run ended: no new plan was found"),
        Outcome::TooMany => Some(b"this run ended: there are too many ground actions"),
    }
}

/// Why a run that ended has no plan any more, if it ended for that.
fn unplanned(outcome: Outcome) -> Option<Refusal> {
    match outcome {
        Outcome::NoPlan => Some(Refusal::NoPlan),
        Outcome::Spent(depth) => Some(Refusal::Spent(depth)),
        Outcome::TooMany => Some(Refusal::TooMany),
        _ => None,
    }
}

/// An equal problem, in a box.
fn copy_of(alloc: Global, problem: &Problem) -> Result<Box<Problem>, AllocError> {
    Ok(Box::new(alloc, problem.copy()?)?)
}

/// Why effects can't be made, if they can't. Else they are made.
fn fault_in(
    problem: &mut Problem,
    expert: &Expert,
    effects: &[Spread],
) -> Result<Option<EffectRefusal>, AllocError> {
    match apply(problem, expert, effects) {
        Ok(_) => Ok(None),
        Err(Failure::Refused(why)) => Ok(Some(why)),
        Err(Failure::OutOfMemory) => Err(AllocError),
    }
}

impl<'a> Teller<'a> {
    /// The file and the bytes of the command line with this number.
    fn line(&self, number: u32) -> Option<(&'a Source, Origin)> {
        let origin = self.sources.line(number)?;
        Some((self.sources.source(origin)?, origin))
    }

    /// The command line with this number as it was read.
    fn command(&self, number: u32) -> Option<&'a Line> {
        let place = usize::try_from(number).ok()?.checked_sub(1)?;
        self.input.lines.as_slice().get(place)
    }

    /// The bytes of the command line with this number.
    fn bytes(&self, number: u32) -> &'a [u8] {
        match self.line(number) {
            Some((source, origin)) => part_of(source.text.as_slice(), origin.from, origin.to),
            None => &[],
        }
    }

    /// Adds a sentence with a command line and a caret under the byte of it at this place, or else under its first word.
    fn mark(
        &self,
        number: u32,
        place: Option<usize>,
        sentence: &[u8],
        page: &mut Page,
    ) -> Result<(), AllocError> {
        match self.line(number) {
            Some((source, origin)) => mark_line(source, origin, place, sentence, page),
            None => {
                page.bytes().extend_from_slice(sentence)?;
                page.end()
            }
        }
    }

    /// Says why the edit of a line was refused.
    fn refused_edit(
        &self,
        watch: &Watch,
        line: (&Source, Origin),
        edit: &Edit,
        why: EditRefusal,
        page: &mut Page,
    ) -> Result<(), AllocError> {
        let (source, origin) = line;
        let bytes = part_of(source.text.as_slice(), origin.from, origin.to);
        let said = Said::of(self.alloc, bytes)?;
        let problem = &watch.problem;
        let spot = spot_of_edit(self.names, self.expert, problem, &said, edit, why);
        let mut sentence = Page::new(self.alloc);
        say_edit(
            self.names,
            self.expert,
            problem,
            &said,
            spot,
            edit,
            why,
            &mut sentence,
        )?;
        mark_line(source, origin, said.place(spot), sentence.as_slice(), page)?;
        let needs_setting = !matches!(edit, Edit::RemoveInstance(_));
        let kind = kind_of_edit(edit, why);
        self.meant(watch, said.word(spot), kind, needs_setting, page)
    }

    /// Says which name of a kind may be meant by a word, or how it becomes an instance.
    fn meant(
        &self,
        watch: &Watch,
        word: &[u8],
        kind: Kind,
        needs_setting: bool,
        page: &mut Page,
    ) -> Result<(), AllocError> {
        let problem = &watch.problem;
        let is_told = say_meant(
            self.alloc,
            self.names,
            self.expert,
            problem,
            word,
            kind,
            page,
        )?;
        if !is_told && needs_setting && kind == Kind::Instance {
            return say_how_set(word, page);
        }
        Ok(())
    }

    /// Says why the act of a line can't be grounded.
    fn refused_act(
        &self,
        watch: &Watch,
        number: u32,
        why: GroundRefusal,
        page: &mut Page,
    ) -> Result<(), AllocError> {
        let Some(Line::Good(Command::RunAction(act))) = self.command(number) else {
            return Ok(());
        };
        let said = Said::of(self.alloc, self.bytes(number))?;
        let spot = spot_of_act(3, act, why);
        let mut sentence = Page::new(self.alloc);
        say_ground(
            self.names,
            self.expert,
            &watch.problem,
            act,
            why,
            &mut sentence,
        )?;
        self.mark(number, said.place(spot), sentence.as_slice(), page)?;
        let kind = blamed_by_act(act, why).kind;
        self.meant(watch, said.word(spot), kind, true, page)
    }

    /// Says that a line asks for what the domain doesn't declare.
    fn refused_question(
        &self,
        watch: &Watch,
        number: u32,
        kind: Kind,
        words: &str,
        page: &mut Page,
    ) -> Result<(), AllocError> {
        let said = Said::of(self.alloc, self.bytes(number))?;
        let mut sentence = Page::new(self.alloc);
        sentence.quote(said.word(3))?;
        sentence.say(words)?;
        self.mark(number, said.place(3), sentence.as_slice(), page)?;
        self.meant(watch, said.word(3), kind, false, page)
    }

    /// Says why a question or a run of a line was refused.
    fn refused_answer(
        &self,
        watch: &Watch,
        number: u32,
        why: Refusal,
        page: &mut Page,
    ) -> Result<(), AllocError> {
        let mut sentence = Page::new(self.alloc);
        say_cause(self.names, &why, &mut sentence)?;
        self.mark(number, None, sentence.as_slice(), page)?;
        let budget = self.input.budget;
        say_no_answer(self.names, self.expert, &watch.problem, budget, why, page)
    }

    /// Says why the text of a line's plan is none.
    fn refused_text(
        &self,
        number: u32,
        why: PlanTextRefusal,
        page: &mut Page,
    ) -> Result<(), AllocError> {
        self.mark(number, None, b"the text of this plan is none", page)?;
        match self.plans.iter().find(|plan| plan.0 == number) {
            Some((_, text)) => say_text_fault(
                self.alloc,
                text.file.as_str(),
                text.text.as_slice(),
                why,
                page,
            ),
            None => Ok(()),
        }
    }

    /// The acts of the plan that a line runs.
    fn acts_of(&self, number: u32) -> Result<Vec<Act>, AllocError> {
        let mut acts = Vec::new(self.alloc);
        if let Some(Line::Good(Command::RunPlan(Ok(steps)))) = self.command(number) {
            for step in steps.as_slice() {
                acts.push(step.act)?;
            }
        }
        Ok(acts)
    }

    /// Says why the plan of a line was refused.
    fn refused_plan(
        &self,
        watch: &Watch,
        number: u32,
        why: PlanRefusal,
        page: &mut Page,
    ) -> Result<(), AllocError> {
        let text = self
            .plans
            .iter()
            .find(|plan| plan.0 == number)
            .map(|plan| &plan.1);
        self.mark(number, None, b"this plan isn't good here", page)?;
        let acts = self.acts_of(number)?;
        say_plan_fault(
            self.alloc,
            self.names,
            self.expert,
            &watch.problem,
            acts.as_slice(),
            text,
            why,
            page,
        )
    }

    /// Says why a line was refused.
    fn refused_line(
        &self,
        watch: &Watch,
        number: u32,
        why: &Refusal,
        page: &mut Page,
    ) -> Result<(), AllocError> {
        match why {
            Refusal::Line(cause) => match self.line(number) {
                Some((source, origin)) => say_bad_line(self.alloc, source, origin, *cause, page),
                None => Ok(()),
            },
            Refusal::Edit(cause) => {
                let edit = self.command(number).and_then(|line| edit_of(line));
                match (self.line(number), edit) {
                    (Some(line), Some(edit)) => self.refused_edit(watch, line, edit, *cause, page),
                    _ => Ok(()),
                }
            }
            Refusal::Plan(cause) => self.refused_plan(watch, number, *cause, page),
            Refusal::PlanText(cause) => self.refused_text(number, *cause, page),
            Refusal::Ground(cause) => self.refused_act(watch, number, *cause, page),
            Refusal::NoPredicate => {
                let words = " is no predicate of the domain";
                self.refused_question(watch, number, Kind::Predicate, words, page)
            }
            Refusal::NoAction => {
                let words = " is no action of the domain";
                self.refused_question(watch, number, Kind::Action, words, page)
            }
            other => self.refused_answer(watch, number, *other, page),
        }
    }

    /// Says why the edit of a member was refused.
    fn refused_member(
        &self,
        watch: &Watch,
        name: Name,
        why: EditRefusal,
        page: &mut Page,
    ) -> Result<(), AllocError> {
        let members = self.input.members.as_slice().iter();
        let found = members
            .zip(self.members)
            .find(|pair| name_of(pair.0) == name);
        let Some((member, source)) = found else {
            return Ok(());
        };
        let line = watch
            .tally
            .line(self.alloc, member, 0, source.text.as_slice())?;
        match (line, watch.tally.edit(member)) {
            (Some(origin), Some(edit)) => {
                self.refused_edit(watch, (source, origin), edit, why, page)
            }
            _ => Ok(()),
        }
    }

    /// Says what went wrong with an act of the run that is open.
    fn say_wrong(
        &self,
        watch: &Watch,
        act: u32,
        event: &Event,
        page: &mut Page,
    ) -> Result<(), AllocError> {
        page.say("act ")?;
        page.number(u64::from(act))?;
        page.say(", ")?;
        if let Some(act) = watch.act(act) {
            say_act(self.names, &act, page)?;
        }
        self.why_wrong(watch, act, event, page)
    }

    /// Says with the line of the run that is open what went wrong with one of its acts.
    fn wrong_act(
        &self,
        watch: &Watch,
        act: u32,
        event: &Event,
        page: &mut Page,
    ) -> Result<(), AllocError> {
        let mut sentence = Page::new(self.alloc);
        self.say_wrong(watch, act, event, &mut sentence)?;
        self.mark(watch.lines, None, sentence.as_slice(), page)?;
        match (event, watch.act(act)) {
            (
                Event::Fail {
                    why: FailWhy::NoPerformer,
                    ..
                },
                Some(act),
            ) => say_performers(self.names, self.input.members.as_slice(), &act, page),
            _ => Ok(()),
        }
    }

    /// Says why an act failed or was cancelled.
    fn why_wrong(
        &self,
        watch: &Watch,
        act: u32,
        event: &Event,
        page: &mut Page,
    ) -> Result<(), AllocError> {
        match event {
            Event::Cancel { why, .. } => self.why_cancelled(watch, act, *why, page),
            Event::Fail { why, .. } => self.why_failed(watch, act, *why, page),
            _ => Ok(()),
        }
    }

    /// Says why an act was cancelled.
    fn why_cancelled(
        &self,
        watch: &Watch,
        act: u32,
        why: CancelWhy,
        page: &mut Page,
    ) -> Result<(), AllocError> {
        let ground = watch.ground(act as usize);
        match (why, ground) {
            (CancelWhy::OverAll, Some(ground)) => {
                page.say(", is cancelled: ")?;
                let conds = &ground.conditions.over_all;
                say_false_of(self.names, self.expert, &watch.problem, conds, page)?;
                Ok(())
            }
            (CancelWhy::OverAll, None) => page.say(", is cancelled"),
            (CancelWhy::Stop, _) => page.say(", is cancelled, since another act went wrong"),
        }
    }

    /// Says why an act failed.
    fn why_failed(
        &self,
        watch: &Watch,
        act: u32,
        why: FailWhy,
        page: &mut Page,
    ) -> Result<(), AllocError> {
        match why {
            FailWhy::NoPerformer => page.say(", fails: no performer is for it"),
            FailWhy::Script => self.say_finish(watch, act, page),
            FailWhy::AtEnd | FailWhy::Effect => {
                page.say(", fails at its end: ")?;
                match watch.ground(act as usize) {
                    Some(ground) => self.why_unended(watch, ground, why, page),
                    None => page.say("it can't end"),
                }
            }
        }
    }

    /// Says why an act can't end.
    fn why_unended(
        &self,
        watch: &Watch,
        ground: &GroundAction,
        why: FailWhy,
        page: &mut Page,
    ) -> Result<(), AllocError> {
        if why == FailWhy::AtEnd {
            let conds = &ground.conditions.at_end;
            say_false_of(self.names, self.expert, &watch.problem, conds, page)?;
            return Ok(());
        }
        let effects = ground.effects.at_end.as_slice();
        match self.fault_of(watch, effects)? {
            Some(why) => say_effect(self.names, effects, why, page),
            None => page.say("its effects can't be made"),
        }
    }

    /// Why effects can't be made, if they can't.
    fn fault_of(
        &self,
        watch: &Watch,
        effects: &[Spread],
    ) -> Result<Option<EffectRefusal>, AllocError> {
        let mut after = copy_of(self.alloc, &watch.problem)?;
        fault_in(&mut after, self.expert, effects)
    }

    /// Says which performer's work on an act went badly.
    fn say_finish(&self, watch: &Watch, act: u32, page: &mut Page) -> Result<(), AllocError> {
        page.say(", fails: ")?;
        match watch.tally.performer(act) {
            Some(performer) => page.name(self.names, performer)?,
            None => page.say("its performer")?,
        }
        page.say(" ends its job with 'finish fail'")
    }

    /// Says which act of the plan is the first that can't start, and why, where a run is blocked.
    fn blocked(&self, watch: &Watch, page: &mut Page) -> Result<(), AllocError> {
        let Some((i, act)) = watch.first_waiting() else {
            return Ok(());
        };
        let mut why = Page::new(self.alloc);
        if self.unready(watch, i, &mut why)? {
            return self.say_unready(i, &act, why.as_slice(), page);
        }
        Ok(())
    }

    /// Says that the act at this place of the plan can't start, and why.
    fn say_unready(
        &self,
        i: usize,
        act: &Act,
        why: &[u8],
        page: &mut Page,
    ) -> Result<(), AllocError> {
        page.say("  Act ")?;
        page.number(i as u64)?;
        page.say(", ")?;
        say_act(self.names, act, page)?;
        page.say(", can't start: ")?;
        page.bytes().extend_from_slice(why)?;
        page.end()
    }

    /// Says why an act can't start. Answers whether there is a reason.
    fn unready(&self, watch: &Watch, act: usize, page: &mut Page) -> Result<bool, AllocError> {
        let Some(ground) = watch.ground(act) else {
            return Ok(false);
        };
        let start = &ground.conditions.at_start;
        if say_false_of(self.names, self.expert, &watch.problem, start, page)? {
            return Ok(true);
        }
        let effects = ground.effects.at_start.as_slice();
        match self.fault_of(watch, effects)? {
            Some(why) => {
                say_effect(self.names, effects, why, page)?;
                Ok(true)
            }
            None => Ok(false),
        }
    }

    /// Says more about how a run ended.
    fn after_end(
        &self,
        watch: &Watch,
        outcome: Outcome,
        page: &mut Page,
    ) -> Result<(), AllocError> {
        if let Outcome::Replans = outcome {
            return page.note("'--replans N' with up to 8 lets it be made anew more often.");
        }
        match unplanned(outcome) {
            Some(why) => {
                let budget = self.input.budget;
                say_no_answer(self.names, self.expert, &watch.problem, budget, why, page)
            }
            None => Ok(()),
        }
    }

    /// Says how a run ended that didn't succeed.
    fn over(&self, watch: &Watch, outcome: Outcome, page: &mut Page) -> Result<(), AllocError> {
        let Some(words) = end_words(outcome) else {
            return Ok(());
        };
        self.mark(watch.lines, None, words, page)?;
        if watch.is_blocked() {
            self.blocked(watch, page)?;
        }
        self.after_end(watch, outcome, page)
    }

    /// Says what an entry has to say of what was refused or went wrong, where this is known before it.
    pub fn entry(&self, watch: &Watch, entry: &Entry, page: &mut Page) -> Result<(), AllocError> {
        match &entry.what {
            Event::Refused {
                by: By::Terminal(number),
                why,
            } => { self.refused_line(watch, *number, why, page) }
            Event::Refused {
                by: By::Performer(_, member) | By::Observer(member),
                why: Refusal::Edit(why),
            } => { self.refused_member(watch, *member, *why, page) }
            Event::Fail { act, .. } | Event::Cancel { act, .. } => {
                self.wrong_act(watch, *act, &entry.what, page)
            }
            Event::Over(outcome) => self.over(watch, *outcome, page),
            Event::Replan(_) if watch.is_blocked() => {
                let sentence = b"this run is blocked, and is planned anew";
                self.mark(watch.lines, None, sentence, page)?;
                self.blocked(watch, page)
            }
            _ => Ok(()),
        }
    }

    /// Says something of the goal, with the line that set it.
    pub fn say_of_goal(
        &self,
        watch: &Watch,
        sentence: &[u8],
        page: &mut Page,
    ) -> Result<(), AllocError> {
        self.mark(watch.goal.unwrap_or(0), None, sentence, page)
    }

    /// Makes the edit of a line, if it is one, and says why it is bad or its edit refused, if so.
    pub fn edit(
        &self,
        watch: &mut Watch,
        number: u32,
        line: &Line,
        page: &mut Page,
    ) -> Result<(), AllocError> {
        match line {
            Line::Bad(cause) => self.refused_line(watch, number, &Refusal::Line(*cause), page),
            Line::Good(Command::Edit(edit)) => match watch.problem.edit(self.expert, edit) {
                Ok(_) => {
                    if let Edit::SetGoal(_) = edit {
                        watch.goal = Some(number);
                    }
                    Ok(())
                }
                Err(Failure::Refused(why)) => {
                    self.refused_line(watch, number, &Refusal::Edit(why), page)
                }
                Err(Failure::OutOfMemory) => Err(AllocError),
            },
            Line::Good(_) => Ok(()),
        }
    }
}
