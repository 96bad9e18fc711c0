//! Faults of plans: of their texts, and of what their steps need.
use super::causes::{blamed_by_act, say_effect, say_ground, say_head, say_meant};
use super::conditions::{say_false, say_false_of};
use super::spots::spot_of_act;
use ps_action::{Act, GroundAction, Known, PlanRefusal, PlanTextRefusal};
use ps_domain::Expert;
use ps_eval::apply;
use ps_journal::name_text;
use ps_places::line_of;
use ps_plan::read_plan;
use ps_problem::Problem;
use ps_remarks::{Page, Said, part_of};
use ps_text::{Names, NumRefusal, lines, read_number};
use ps_world::{Failure, Num, Spread};
use std::alloc::{AllocError, Global};

/// The text of a plan, and where the line of each of its steps begins, in the order of time.
#[derive(Drop)]
pub struct PlanText {
    pub file: String,
    pub text: Vec<u8>,
    places: Vec<usize>,
}

/// When the step of a line starts, if the line says one.
fn time_of(alloc: Global, line: &[u8]) -> Result<Option<Num>, AllocError> {
    let mut names = Names::new(alloc)?;
    match read_plan(alloc, &mut names, line) {
        Ok(steps) => Ok(steps.as_slice().first().map(|step| step.time)),
        Err(Failure::Refused(_)) => Ok(None),
        Err(Failure::OutOfMemory) => Err(AllocError),
    }
}

/// Where the lines of a plan's steps begin, in the order of time, and of the text where times are equal.
fn places_of(alloc: Global, text: &[u8]) -> Result<Vec<usize>, AllocError> {
    let mut timed: Vec<(Num, usize)> = Vec::new(alloc);
    for span in &lines(alloc, text)? {
        if let Some(time) = time_of(alloc, part_of(text, span.from, span.to))? {
            let before = timed.iter().take_while(|step| step.0 <= time).count();
            timed.insert(before.min(timed.len()), (time, span.from))?;
        }
    }
    timed.iter().map(|step| step.1).collect(alloc)
}

impl PlanText {
    /// The text of a plan in a file.
    pub fn of(alloc: Global, file: &str, text: Vec<u8>) -> Result<PlanText, AllocError> {
        let places = places_of(alloc, text.as_slice())?;
        Ok(PlanText {
            file: file.to_string(alloc)?,
            text,
            places,
        })
    }

    /// Where the line of a step begins.
    fn step_begin(&self, step: u32) -> usize {
        self.places
            .as_slice()
            .get(step as usize)
            .copied()
            .unwrap_or(0)
    }

    /// The byte of the text at which a word of a step stands, counted from its parenthesis on, or at which its line begins.
    fn place_in(&self, alloc: Global, step: u32, word: usize) -> Result<usize, AllocError> {
        let begin = self.step_begin(step);
        let line = line_of(self.text.as_slice(), begin);
        let time = line.iter().take_while(|byte| **byte != b'(').count();
        let act = line.iter().take_while(|byte| **byte != b')').count();
        let said = Said::of(alloc, part_of(line, time, act))?;
        match said.place(word) {
            Some(place) => Ok(begin.saturating_add(time).saturating_add(place)),
            None => Ok(begin),
        }
    }

    /// Adds a sentence with the line of a step, and a caret under this word of it, if one is at fault.
    fn mark_step(
        &self,
        alloc: Global,
        step: u32,
        word: Option<usize>,
        sentence: &[u8],
        page: &mut Page,
    ) -> Result<(), AllocError> {
        let at = match word {
            Some(word) => self.place_in(alloc, step, word)?,
            None => self.step_begin(step),
        };
        page.mark(self.file.as_str(), self.text.as_slice(), at, sentence)
    }

    /// Adds a sentence with the last line.
    fn mark_end(&self, sentence: &[u8], page: &mut Page) -> Result<(), AllocError> {
        let at = self.places.as_slice().last().copied().unwrap_or(0);
        page.mark(self.file.as_str(), self.text.as_slice(), at, sentence)
    }
}

/// The place of a number in a line that is finer than thousandths.
fn too_fine(line: &[u8]) -> Option<usize> {
    let mut at = 0usize;
    let mut rest = line;
    for _ in 0..line.len() {
        let is_digit = |byte: &u8| byte.is_ascii_digit() || *byte == b'.';
        let count = rest.iter().take_while(|byte| is_digit(*byte)).count();
        let (word, _) = rest.split_at(count.min(rest.len()));
        if read_number(word) == Err(NumRefusal::TooFine) {
            return Some(at);
        }
        let skipped = count.max(1).min(rest.len());
        rest = rest.split_at(skipped).1;
        at = at.saturating_add(skipped);
    }
    None
}

/// What is wrong with a line that is no step, and the byte of it.
fn fault_of_line(line: &[u8]) -> (usize, &'static str) {
    let blanks = line
        .iter()
        .take_while(|byte| byte.is_ascii_whitespace())
        .count();
    if let Some(at) = too_fine(line) {
        return (
            at,
            "this number has more than three decimals: thousandths are the finest",
        );
    }
    match line.get(blanks) {
        Some(b'#') => (
            blanks,
            "a comment begins with ';' as the first byte of its line",
        ),
        Some(b';') => (0, "a comment begins with ';' as the first byte of its line"),
        Some(0xef) => (
            blanks,
            "a byte order mark stands here: save the file as UTF-8 without one",
        ),
        Some(byte) if !byte.is_ascii_digit() => (blanks, "a step begins with its time"),
        _ => (blanks, "this is no step"),
    }
}

/// Says why a text is no plan, and where.
pub fn say_text_fault(
    alloc: Global,
    file: &str,
    text: &[u8],
    why: PlanTextRefusal,
    page: &mut Page,
) -> Result<(), AllocError> {
    let (PlanTextRefusal::Line { n } | PlanTextRefusal::Long { n }) = why;
    let spans = lines(alloc, text)?;
    let Some(span) = spans.as_slice().get(n.saturating_sub(1)) else {
        return Ok(());
    };
    if let PlanTextRefusal::Long { .. } = why {
        return page.mark(
            file,
            text,
            span.from,
            b"this is the 257th step: a plan has at most 256",
        );
    }
    let (at, sentence) = fault_of_line(part_of(text, span.from, span.to));
    page.mark(
        file,
        text,
        span.from.saturating_add(at),
        sentence.as_bytes(),
    )?;
    page.note("A step is as: 0.000: (move leia hall kitchen) [5.000]")
}

/// Makes effects, if they can be made.
pub fn make(expert: &Expert, problem: &mut Problem, effects: &[Spread]) -> Result<(), AllocError> {
    match apply(problem, expert, effects) {
        Ok(_) | Err(Failure::Refused(_)) => Ok(()),
        Err(Failure::OutOfMemory) => Err(AllocError),
    }
}

/// The ground action of an act, if it has one.
pub fn ground_of(
    expert: &Expert,
    problem: &Problem,
    act: &Act,
) -> Result<Option<GroundAction>, AllocError> {
    match expert.ground(Known::instances(problem), act) {
        Ok(ground) => Ok(Some(ground)),
        Err(Failure::Refused(_)) => Ok(None),
        Err(Failure::OutOfMemory) => Err(AllocError),
    }
}

/// Makes the effects of a ground action, those at its start and then those at its end.
fn make_both(
    expert: &Expert,
    problem: &mut Problem,
    ground: &GroundAction,
) -> Result<(), AllocError> {
    make(expert, problem, ground.effects.at_start.as_slice())?;
    make(expert, problem, ground.effects.at_end.as_slice())
}

/// Makes the start effects and the end effects of acts, one after another.
fn make_all(expert: &Expert, problem: &mut Problem, acts: &[Act]) -> Result<(), AllocError> {
    for act in acts {
        if let Some(ground) = ground_of(expert, problem, act)? {
            make_both(expert, problem, &ground)?;
        }
    }
    Ok(())
}

/// Adds an act.
pub fn say_act(names: &Names, act: &Act, page: &mut Page) -> Result<(), AllocError> {
    say_head(names, act.action, act.args.as_slice(), page)
}

/// The number of the step that a fault is of.
fn step_of(why: PlanRefusal) -> Option<u32> {
    match why {
        PlanRefusal::NoGoal | PlanRefusal::GoalFalse => None,
        PlanRefusal::Ground(step, _)
        | PlanRefusal::StartFalse(step)
        | PlanRefusal::StartEffect(step, _)
        | PlanRefusal::OverAllFalse(step)
        | PlanRefusal::EndFalse(step)
        | PlanRefusal::EndEffect(step, _) => Some(step),
    }
}

/// Says what a step needs that isn't so, where what is known is that before it.
fn say_needed(
    names: &Names,
    expert: &Expert,
    before: &mut Problem,
    ground: &GroundAction,
    why: PlanRefusal,
    page: &mut Page,
) -> Result<(), AllocError> {
    if let PlanRefusal::StartFalse(_) = why {
        page.say("can't start: ")?;
        say_false_of(names, expert, before, &ground.conditions.at_start, page)?;
        return Ok(());
    }
    if let PlanRefusal::StartEffect(_, effect) = why {
        page.say("can't start: ")?;
        return say_effect(names, ground.effects.at_start.as_slice(), effect, page);
    }
    make(expert, before, ground.effects.at_start.as_slice())?;
    match why {
        PlanRefusal::OverAllFalse(_) => {
            page.say("can't go on after its start: ")?;
            say_false_of(names, expert, before, &ground.conditions.over_all, page)?;
            Ok(())
        }
        PlanRefusal::EndFalse(_) => {
            page.say("can't end: ")?;
            say_false_of(names, expert, before, &ground.conditions.at_end, page)?;
            Ok(())
        }
        PlanRefusal::EndEffect(_, effect) => {
            page.say("can't end: ")?;
            say_effect(names, ground.effects.at_end.as_slice(), effect, page)
        }
        _ => Ok(()),
    }
}

/// Says why a step of a plan fails, where what is known is that before it.
fn say_step(
    names: &Names,
    expert: &Expert,
    before: &mut Problem,
    act: &Act,
    why: PlanRefusal,
    page: &mut Page,
) -> Result<(), AllocError> {
    say_act(names, act, page)?;
    page.say(" ")?;
    if let PlanRefusal::Ground(_, cause) = why {
        page.say("is no act: ")?;
        return say_ground(names, expert, before, act, cause, page);
    }
    match ground_of(expert, before, act)? {
        Some(ground) => say_needed(names, expert, before, &ground, why, page),
        None => page.say("is no act"),
    }
}

/// Says what is wrong with a plan, where this is known before its first step, which its steps then change.
fn say_plan_from(
    names: &Names,
    expert: &Expert,
    known: &mut Problem,
    acts: &[Act],
    why: PlanRefusal,
    page: &mut Page,
) -> Result<(), AllocError> {
    let Some(step) = step_of(why) else {
        make_all(expert, known, acts)?;
        return say_goal_open(names, expert, known, page);
    };
    let (done, rest) = acts.split_at((step as usize).min(acts.len()));
    make_all(expert, known, done)?;
    page.say("step ")?;
    page.number(u64::from(step))?;
    page.say(", ")?;
    match rest.first() {
        Some(act) => say_step(names, expert, known, act, why, page),
        None => Ok(()),
    }
}

/// Says which part of the goal doesn't hold after the last step of a plan, where this is known.
fn say_goal_open(
    names: &Names,
    expert: &Expert,
    after: &Problem,
    page: &mut Page,
) -> Result<(), AllocError> {
    page.say("the goal doesn't hold after the last step: ")?;
    if let Some(goal) = after.goal() {
        say_false(names, expert, after, goal, page)?;
    }
    Ok(())
}

/// Says why a plan isn't good, where this is known before it.
fn say_plan(
    names: &Names,
    expert: &Expert,
    known: &Problem,
    acts: &[Act],
    why: PlanRefusal,
    page: &mut Page,
) -> Result<(), AllocError> {
    if why == PlanRefusal::NoGoal {
        return page.say("there is no goal: a line 'set goal CONDITION' sets one");
    }
    let mut before = known.copy()?;
    say_plan_from(names, expert, &mut before, acts, why, page)
}

/// The word of a step at fault, counted from its parenthesis on, if one is.
fn word_of(acts: &[Act], why: PlanRefusal) -> Option<usize> {
    match why {
        PlanRefusal::Ground(step, cause) => {
            let act = acts.get(step as usize)?;
            Some(spot_of_act(1, act, cause))
        }
        _ => None,
    }
}

/// Says which name may be meant by the one for which a step is no act, if one is close.
fn say_step_meant(
    alloc: Global,
    names: &Names,
    expert: &Expert,
    known: &Problem,
    acts: &[Act],
    why: PlanRefusal,
    page: &mut Page,
) -> Result<(), AllocError> {
    let PlanRefusal::Ground(step, cause) = why else {
        return Ok(());
    };
    let Some(act) = acts.get(step as usize) else {
        return Ok(());
    };
    let blamed = blamed_by_act(act, cause);
    if let Some(name) = blamed.name {
        let word = name_text(names, name);
        say_meant(alloc, names, expert, known, word, blamed.kind, page)?;
    }
    Ok(())
}

/// Says why a plan isn't good, with the line of its text, if it has one.
pub fn say_plan_fault(
    alloc: Global,
    names: &Names,
    expert: &Expert,
    known: &Problem,
    acts: &[Act],
    text: Option<&PlanText>,
    why: PlanRefusal,
    page: &mut Page,
) -> Result<(), AllocError> {
    let mut sentence = Page::new(alloc);
    say_plan(names, expert, known, acts, why, &mut sentence)?;
    match (text, step_of(why)) {
        (Some(text), Some(step)) => {
            let word = word_of(acts, why);
            text.mark_step(alloc, step, word, sentence.as_slice(), page)?;
            say_step_meant(alloc, names, expert, known, acts, why, page)
        }
        (Some(text), None) if why == PlanRefusal::GoalFalse => {
            text.mark_end(sentence.as_slice(), page)
        }
        _ => {
            page.say("  ")?;
            page.bytes().extend_from_slice(sentence.as_slice())?;
            page.end()
        }
    }
}
