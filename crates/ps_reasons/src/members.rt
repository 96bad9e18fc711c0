//! Faults of members' texts, and members whom no act asks for.
use super::causes::kind_of;
use ps_action::{Act, Known};
use ps_domain::Expert;
use ps_journal::name_text;
use ps_machine::{LineCause, Member, Performer};
use ps_members::ScriptRefusal;
use ps_problem::Problem;
use ps_remarks::{Origin, Page, Said, Source, part_of, say_bad_line, say_close};
use ps_text::{Names, Span, Words, script_lines};
use ps_world::{ActionDef, Name};
use std::alloc::{AllocError, Global};

/// The lines of members' files.
const FORMS: [&str; 9] = [
    "performer NAME, or observer NAME, as the first line",
    "action NAME, then args with a name or _ for each parameter, of a performer",
    "job, then its units, the last of which is finish ok or finish fail, of a performer",
    "work",
    "feedback 0..100 NOTE",
    "when CONDITION, before the line of an edit, of an observer",
    "set instance ..; set predicate ..; set function ..; set goal ..",
    "remove instance ..; remove predicate ..; remove function ..; remove goal",
    "end",
];

/// The forms of the lines that members' files alone have, each by its first word.
const OWN_FORMS: [(&str, &str); 10] = [
    ("performer", "performer NAME"),
    ("observer", "observer NAME"),
    ("action", "action NAME"),
    ("args", "args, and then a name or _ for each parameter"),
    ("job", "job"),
    ("work", "work"),
    (
        "feedback",
        "feedback 0..100 NOTE, with a NOTE of 1 to 64 printable bytes",
    ),
    ("finish", "finish ok, or finish fail"),
    ("when", "when CONDITION"),
    ("end", "end"),
];

/// The sentence of a refusal that isn't of a line's form.
fn sentence_of(refusal: ScriptRefusal) -> &'static str {
    match refusal {
        ScriptRefusal::Line { .. } => "this line doesn't fit here",
        ScriptRefusal::NoAction { .. } => "the domain has no action of this name",
        ScriptRefusal::Arity { .. } => {
            "there has to be one place, a name or _, for each parameter of the action"
        }
        ScriptRefusal::NoFinish { .. } => {
            "the job before this line doesn't end with 'finish ok' or 'finish fail'"
        }
        ScriptRefusal::Limit { .. } => "there are at most 64 jobs, and 1000 units in each",
    }
}

/// The line of a refusal, counted from 1.
fn line_of_refusal(refusal: ScriptRefusal) -> usize {
    match refusal {
        ScriptRefusal::Line { n, .. }
        | ScriptRefusal::NoAction { n }
        | ScriptRefusal::Arity { n }
        | ScriptRefusal::NoFinish { n }
        | ScriptRefusal::Limit { n } => n,
    }
}

/// Says the forms of a member's lines.
fn say_forms(page: &mut Page) -> Result<(), AllocError> {
    page.note("The lines of a member are:")?;
    for form in FORMS {
        page.say("    ")?;
        page.say(form)?;
        page.end()?;
    }
    Ok(())
}

/// Adds a sentence with a line, and a caret under its first word.
fn mark_begin(
    source: &Source,
    span: Span,
    sentence: &[u8],
    page: &mut Page,
) -> Result<(), AllocError> {
    let text = source.text.as_slice();
    let line = part_of(text, span.from, span.to).iter();
    let blanks = line.take_while(|byte| byte.is_ascii_whitespace()).count();
    let at = span.from.saturating_add(blanks);
    page.mark(source.file.as_str(), text, at, sentence)
}

/// Where a line of a member's file stands, by its number counted from 0.
fn span_of(alloc: Global, source: &Source, number: usize) -> Result<Option<Span>, AllocError> {
    let spans = script_lines(alloc, source.text.as_slice())?;
    Ok(spans.as_slice().get(number).copied())
}

/// Says why a text is no member, and where.
pub fn say_member_fault(
    alloc: Global,
    names: &Names,
    expert: &Expert,
    source: &Source,
    refusal: ScriptRefusal,
    page: &mut Page,
) -> Result<(), AllocError> {
    let number = line_of_refusal(refusal).saturating_sub(1);
    let Some(span) = span_of(alloc, source, number)? else {
        let end = source.text.len().saturating_sub(1);
        let sentence = b"the text ends here, where more has to come";
        page.mark(source.file.as_str(), source.text.as_slice(), end, sentence)?;
        return say_forms(page);
    };
    let origin = Origin {
        source: 0,
        from: span.from,
        to: span.to,
    };
    match refusal {
        ScriptRefusal::Line {
            cause: LineCause::Command,
            ..
        } => {
            let sentence = b"no line of a member that may stand here begins so";
            mark_begin(source, span, sentence, page)?;
            say_forms(page)
        }
        ScriptRefusal::Line { cause, .. } => {
            say_bad_line(alloc, source, origin, cause, page)?;
            match cause {
                LineCause::Shape { .. } => say_own_form(alloc, source, span, page),
                _ => Ok(()),
            }
        }
        ScriptRefusal::NoAction { .. } => say_no_action(alloc, names, expert, source, span, page),
        _ => {
            mark_begin(source, span, sentence_of(refusal).as_bytes(), page)?;
            match refusal {
                ScriptRefusal::Arity { n } => say_places(alloc, names, expert, source, n, page),
                _ => Ok(()),
            }
        }
    }
}

/// Says which form a line has that members' files alone have.
fn say_own_form(
    alloc: Global,
    source: &Source,
    span: Span,
    page: &mut Page,
) -> Result<(), AllocError> {
    let words = Words::of(alloc, part_of(source.text.as_slice(), span.from, span.to))?;
    for (first, form) in OWN_FORMS {
        if words.reads(0, first.as_bytes()) {
            page.say("  The form is: ")?;
            page.say(form)?;
            return page.end();
        }
    }
    Ok(())
}

/// Marks the word of a performer's line that names no action of the domain.
fn mark_no_action(
    alloc: Global,
    source: &Source,
    span: Span,
    said: &Said<'_>,
    page: &mut Page,
) -> Result<(), AllocError> {
    let at = span.from.saturating_add(said.place(1).unwrap_or(0));
    let mut sentence = Page::new(alloc);
    sentence.quote(said.word(1))?;
    sentence.say(" is no action of the domain")?;
    page.mark(
        source.file.as_str(),
        source.text.as_slice(),
        at,
        sentence.as_slice(),
    )
}

/// Says which action of the domain may be meant.
fn say_close_action(
    alloc: Global,
    names: &Names,
    expert: &Expert,
    word: &[u8],
    page: &mut Page,
) -> Result<(), AllocError> {
    let mut texts = Vec::new(alloc);
    for action in expert.domain().actions.as_slice() {
        texts.push(name_text(names, action.name))?;
    }
    say_close(alloc, word, texts.as_slice(), page)?;
    Ok(())
}

/// Says that a line of a performer names no action of the domain, and which one may be meant.
fn say_no_action(
    alloc: Global,
    names: &Names,
    expert: &Expert,
    source: &Source,
    span: Span,
    page: &mut Page,
) -> Result<(), AllocError> {
    let said = Said::of(alloc, part_of(source.text.as_slice(), span.from, span.to))?;
    mark_no_action(alloc, source, span, &said, page)?;
    say_close_action(alloc, names, expert, said.word(1), page)
}

/// The action that a line of a performer names.
fn action_in<'a>(
    alloc: Global,
    names: &Names,
    expert: &'a Expert,
    line: &[u8],
) -> Result<Option<&'a ActionDef>, AllocError> {
    let said = Said::of(alloc, line)?;
    if !said.is(0, b"action") {
        return Ok(None);
    }
    let mut actions = expert.domain().actions.as_slice().iter();
    Ok(actions.find(|action| said.is(1, name_text(names, action.name))))
}

/// Says the types of an action's parameters.
fn say_parameters(names: &Names, action: &ActionDef, page: &mut Page) -> Result<(), AllocError> {
    page.say("  The parameters of ")?;
    page.name(names, action.name)?;
    page.say(" are of these types:")?;
    for param in action.params.as_slice() {
        page.say(" ")?;
        page.show(name_text(names, param.kind))?;
    }
    page.end()
}

/// Says the parameters of each action that one of these lines of a performer names.
fn say_places_of(
    alloc: Global,
    names: &Names,
    expert: &Expert,
    text: &[u8],
    spans: &[Span],
    page: &mut Page,
) -> Result<(), AllocError> {
    for span in spans {
        let line = part_of(text, span.from, span.to);
        if let Some(action) = action_in(alloc, names, expert, line)? {
            say_parameters(names, action, page)?;
        }
    }
    Ok(())
}

/// Says the parameters of the action that the lines of a performer before one name.
fn say_places(
    alloc: Global,
    names: &Names,
    expert: &Expert,
    source: &Source,
    before: usize,
    page: &mut Page,
) -> Result<(), AllocError> {
    let text = source.text.as_slice();
    let spans = script_lines(alloc, text)?;
    let (first, _) = spans.as_slice().split_at(before.min(spans.len()));
    say_places_of(alloc, names, expert, text, first, page)
}

/// The name of a member.
pub fn name_of(member: &Member) -> Name {
    match member {
        Member::Performer(performer) => performer.name,
        Member::Observer(observer) => observer.name,
    }
}

/// The first place of a performer's pattern that isn't met by an act's arguments.
fn first_unmet(performer: &Performer, act: &Act) -> Option<(usize, Name, Name)> {
    let pattern = performer.pattern.as_slice().iter();
    for (at, (want, got)) in pattern.zip(act.args.as_slice()).enumerate() {
        if let Some(want) = want {
            if want != got {
                return Some((at, *want, *got));
            }
        }
    }
    None
}

/// Says why a performer isn't for an act.
fn say_unfit(
    names: &Names,
    performer: &Performer,
    act: &Act,
    page: &mut Page,
) -> Result<(), AllocError> {
    page.say("    ")?;
    page.name(names, performer.name)?;
    match first_unmet(performer, act) {
        Some((at, want, got)) => {
            page.say(" wants ")?;
            page.name(names, want)?;
            page.say(" as argument ")?;
            page.number(at.saturating_add(1) as u64)?;
            page.say(", and here it is ")?;
            page.name(names, got)?;
        }
        None => page.say(" fits")?,
    }
    page.end()
}

/// Says which members manage an act's action, and by which place each of them doesn't fit.
pub fn say_performers(
    names: &Names,
    members: &[Member],
    act: &Act,
    page: &mut Page,
) -> Result<(), AllocError> {
    let mut is_managed = false;
    for member in members {
        if let Member::Performer(performer) = member {
            if performer.action == act.action {
                if !is_managed {
                    page.note("Of the members that do this action:")?;
                }
                is_managed = true;
                say_unfit(names, performer, act, page)?;
            }
        }
    }
    if is_managed {
        return Ok(());
    }
    page.say("  No member does the action ")?;
    page.name(names, act.action)?;
    page.say(": name the file of one after the options.\n")
}

/// Whether an instance of a type or one below it is known.
fn has_instance(expert: &Expert, problem: &Problem, kind: Name) -> bool {
    Known::instances(problem)
        .iter()
        .any(|own| expert.is_subtype(own.1, kind))
}

/// Whether the argument of an act may be as a place of a performer's pattern says, where the parameter has this type.
fn may_be(expert: &Expert, problem: &Problem, want: Option<Name>, kind: Name) -> bool {
    match want {
        None => has_instance(expert, problem, kind),
        Some(want) => match kind_of(problem, want) {
            Some(own) => expert.is_subtype(own, kind),
            None => false,
        },
    }
}

/// The first place of a performer's pattern at which no argument can fit by what is known, with the parameter's type.
fn first_unfit(
    expert: &Expert,
    problem: &Problem,
    performer: &Performer,
) -> Option<(Option<Name>, Name)> {
    let action = expert.action(performer.action)?;
    let params = action.params.as_slice().iter();
    for (want, param) in performer.pattern.as_slice().iter().zip(params) {
        if !may_be(expert, problem, *want, param.kind) {
            return Some((*want, param.kind));
        }
    }
    None
}

/// Whether an act could ask for a member by what is known, which is so of each observer.
pub fn may_be_asked(expert: &Expert, problem: &Problem, member: &Member) -> bool {
    match member {
        Member::Performer(performer) => first_unfit(expert, problem, performer).is_none(),
        Member::Observer(_) => true,
    }
}

/// Says why no argument fits at a place of a performer's pattern.
fn say_unfit_place(
    names: &Names,
    problem: &Problem,
    want: Option<Name>,
    kind: Name,
    page: &mut Page,
) -> Result<(), AllocError> {
    let Some(want) = want else {
        page.say("no instance is of type ")?;
        return page.name(names, kind);
    };
    page.name(names, want)?;
    match kind_of(problem, want) {
        Some(own) => {
            page.say(", in its 'args', is of type ")?;
            page.name(names, own)?;
            page.say(", and ")?;
            page.name(names, kind)?;
            page.say(" is wanted")
        }
        None => page.say(", in its 'args', is no instance"),
    }
}

/// Says why no act can ask for a member by what is known, where none can.
pub fn say_idle(
    names: &Names,
    expert: &Expert,
    problem: &Problem,
    member: &Member,
    page: &mut Page,
) -> Result<(), AllocError> {
    let Member::Performer(performer) = member else {
        return Ok(());
    };
    let Some((want, kind)) = first_unfit(expert, problem, performer) else {
        return Ok(());
    };
    page.say("no act of any plan can ask for ")?;
    page.name(names, performer.name)?;
    page.say(": ")?;
    say_unfit_place(names, problem, want, kind, page)
}
