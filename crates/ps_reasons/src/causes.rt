//! Why edits, acts and plans are refused, in words.
use super::spots::{decl_around, type_at};
use ps_action::{Act, EffectRefusal, GroundRefusal};
use ps_domain::Expert;
use ps_journal::name_text;
use ps_machine::{Command, Line};
use ps_problem::Problem;
use ps_remarks::{Page, Said, say_close};
use ps_text::Names;
use ps_world::{Decl, Edit, EditRefusal, Effect, Fact, Guarded, Name, Spread};
use std::alloc::{AllocError, Global};

/// The name that a refusal is about, and what kind of name it should be.
#[derive(Clone, Copy)]
pub struct Blamed {
    pub name: Option<Name>,
    /// Names that may be meant are those of this kind.
    pub kind: Kind,
}

/// What a name names.
#[derive(Clone, Copy, PartialEq, Eq)]
pub enum Kind {
    Nothing,
    Type,
    Predicate,
    Function,
    Action,
    Instance,
}

/// A number of words.
fn say_count(count: usize, page: &mut Page) -> Result<(), AllocError> {
    page.number(count as u64)?;
    page.say(if count == 1 {
        " argument is wanted"
    } else {
        " arguments are wanted"
    })
}

/// Says that the arguments are too few or too many.
pub fn say_arity(want: usize, got: usize, page: &mut Page) -> Result<(), AllocError> {
    say_count(want, page)?;
    page.say(", and ")?;
    page.number(got as u64)?;
    page.say(if got == 1 { " is there" } else { " are there" })
}

/// The type that an argument of an edit is to have.
fn wanted_type(
    names: &Names,
    expert: &Expert,
    said: &Said<'_>,
    edit: &Edit,
    spot: usize,
    at: usize,
) -> Option<Name> {
    let decl = match edit {
        Edit::AddFact(fact) | Edit::RemoveFact(fact) => expert.predicate(fact.head),
        Edit::SetValue(term, _) | Edit::RemoveValue(term) => expert.function(term.head),
        _ => decl_around(names, expert, said, spot),
    };
    let param = decl.and_then(|decl| decl.params.as_slice().get(at));
    param.map(|param| param.kind)
}

/// What kind of name is wanted where an edit is refused.
pub fn kind_of_edit(edit: &Edit, why: EditRefusal) -> Kind {
    match (edit, why) {
        (_, EditRefusal::NoType) => Kind::Type,
        (_, EditRefusal::NoInstance(_)) => Kind::Instance,
        (_, EditRefusal::NoPredicate) => Kind::Predicate,
        (_, EditRefusal::NoFunction) => Kind::Function,
        _ => Kind::Nothing,
    }
}

/// What an act that can't be grounded is to be blamed for.
pub fn blamed_by_act(act: &Act, why: GroundRefusal) -> Blamed {
    let (name, kind) = match why {
        GroundRefusal::NoAction => (Some(act.action), Kind::Action),
        GroundRefusal::Arity { .. } => (Some(act.action), Kind::Nothing),
        GroundRefusal::NoInstance(name) => (Some(name), Kind::Instance),
        GroundRefusal::WrongType { at } => (act.args.as_slice().get(at).copied(), Kind::Nothing),
    };
    Blamed { name, kind }
}

/// Says a name, or `it` where there is none.
fn say_name(names: &Names, name: Option<Name>, page: &mut Page) -> Result<(), AllocError> {
    match name {
        Some(name) => page.name(names, name),
        None => page.say("it"),
    }
}

/// The type of an instance.
pub fn kind_of(problem: &Problem, name: Name) -> Option<Name> {
    ps_action::Known::kind_of(problem, name)
}

/// Says which types an argument has and is to have.
fn say_types(
    names: &Names,
    at: usize,
    own: Option<Name>,
    want: Option<Name>,
    page: &mut Page,
) -> Result<(), AllocError> {
    page.say(", argument ")?;
    page.number(at.saturating_add(1) as u64)?;
    if let Some(own) = own {
        page.say(", is of type ")?;
        page.name(names, own)?;
    }
    if let Some(want) = want {
        page.say(", and ")?;
        page.name(names, want)?;
        page.say(" is wanted")?;
    }
    Ok(())
}

/// Says that a word is none of one kind of name, and that it is one of another kind, if it is.
fn say_no_head(none: &str, other: bool, but: &str, page: &mut Page) -> Result<(), AllocError> {
    page.say(none)?;
    page.say(" of the domain")?;
    if other {
        page.say(but)?;
    }
    Ok(())
}

/// Whether one of some declarations has the name of a word.
fn is_declared(names: &Names, all: &[Decl], said: &Said<'_>, spot: usize) -> bool {
    all.iter()
        .any(|decl| said.is(spot, name_text(names, decl.name)))
}

/// Says why an edit is refused for a word of its line.
pub fn say_edit(
    names: &Names,
    expert: &Expert,
    problem: &Problem,
    said: &Said<'_>,
    spot: usize,
    edit: &Edit,
    why: EditRefusal,
    page: &mut Page,
) -> Result<(), AllocError> {
    match why {
        EditRefusal::Full => return page.say("1000 instances are there, which are the most"),
        EditRefusal::NoGoal => return page.say("there is no goal to remove"),
        _ => page.quote(said.word(spot))?,
    }
    let domain = expert.domain();
    match why {
        EditRefusal::NoType => page.say(" is no type of the domain"),
        EditRefusal::InstanceThere => say_there(names, expert, problem, said, spot, page),
        EditRefusal::NoInstance(_) => page.say(" is no instance"),
        EditRefusal::Constant => page.say(" is a constant of the domain, which stays"),
        EditRefusal::NoPredicate => {
            let other = is_declared(names, domain.functions.as_slice(), said, spot);
            say_no_head(" is no predicate", other, ", but a function", page)
        }
        EditRefusal::NoFunction => {
            let other = is_declared(names, domain.predicates.as_slice(), said, spot);
            say_no_head(" is no function", other, ", but a predicate", page)
        }
        EditRefusal::NoFact => page.say(": this fact isn't known, so that it can't be removed"),
        EditRefusal::NoValue => page.say(": it has no value here, so that none can be removed"),
        EditRefusal::Arity { want, got } => {
            page.say(": ")?;
            say_arity(want, got, page)
        }
        EditRefusal::WrongType { at } => {
            let own = type_at(names, expert, problem, said, spot);
            let want = wanted_type(names, expert, said, edit, spot, at);
            say_types(names, at, own, want, page)
        }
        EditRefusal::Full | EditRefusal::NoGoal => Ok(()),
    }
}

/// Says with which type an instance is there already.
fn say_there(
    names: &Names,
    expert: &Expert,
    problem: &Problem,
    said: &Said<'_>,
    spot: usize,
    page: &mut Page,
) -> Result<(), AllocError> {
    page.say(" is there already")?;
    if let Some(own) = type_at(names, expert, problem, said, spot) {
        page.say(", with the type ")?;
        page.name(names, own)?;
    }
    Ok(())
}

/// Says why an act can't be grounded.
pub fn say_ground(
    names: &Names,
    expert: &Expert,
    problem: &Problem,
    act: &Act,
    why: GroundRefusal,
    page: &mut Page,
) -> Result<(), AllocError> {
    let name = blamed_by_act(act, why).name;
    say_name(names, name, page)?;
    match why {
        GroundRefusal::NoAction => page.say(" is no action of the domain"),
        GroundRefusal::NoInstance(_) => page.say(" is no instance"),
        GroundRefusal::Arity { want, got } => {
            page.say(": ")?;
            say_arity(want, got, page)
        }
        GroundRefusal::WrongType { at } => {
            let own = name.and_then(|name| kind_of(problem, name));
            let action = expert.action(act.action);
            let param = action.and_then(|action| action.params.as_slice().get(at));
            say_types(names, at, own, param.map(|param| param.kind), page)
        }
    }
}

/// Adds a name and others after it, in parentheses.
pub fn say_head(
    names: &Names,
    head: Name,
    args: &[Name],
    page: &mut Page,
) -> Result<(), AllocError> {
    page.say("(")?;
    page.show(name_text(names, head))?;
    for name in args {
        page.say(" ")?;
        page.show(name_text(names, *name))?;
    }
    page.say(")")
}

/// The function term whose value the effect of a list at a place changes, if all up to it stand for one effect each.
fn term_at(effects: &[Spread], at: usize) -> Option<Fact> {
    let count = at.saturating_add(1);
    let is_plain = |spread: &Spread| matches!(spread, Spread::Once(Guarded::Plain(_)));
    if !effects.iter().take(count).all(|spread| is_plain(spread)) {
        return None;
    }
    match effects.get(at) {
        Some(Spread::Once(Guarded::Plain(Effect::Number(_, term, _)))) => Some(term.ground()),
        _ => None,
    }
}

/// Says which effect of a list it is, if it can be told.
fn say_effect_at(
    names: &Names,
    effects: &[Spread],
    at: usize,
    page: &mut Page,
) -> Result<(), AllocError> {
    match term_at(effects, at) {
        Some(term) => {
            page.say("its effect on ")?;
            say_head(names, term.head, term.args.as_slice(), page)?;
            page.say(" ")
        }
        None => page.say("one of its effects "),
    }
}

/// Says why effects can't be made.
pub fn say_effect(
    names: &Names,
    effects: &[Spread],
    why: EffectRefusal,
    page: &mut Page,
) -> Result<(), AllocError> {
    match why {
        EffectRefusal::Clash { at } => {
            say_effect_at(names, effects, at, page)?;
            page.say("gives a function a value that an effect before it gives one too")
        }
        EffectRefusal::Undefined { at } => {
            say_effect_at(names, effects, at, page)?;
            page.say("reads a function that has no value there, or divides by zero")
        }
        EffectRefusal::Range { at } => {
            say_effect_at(names, effects, at, page)?;
            page.say("gives a value that is too large")
        }
    }
}

/// All names of a kind.
fn names_of(
    alloc: Global,
    expert: &Expert,
    problem: &Problem,
    kind: Kind,
) -> Result<Vec<Name>, AllocError> {
    let domain = expert.domain();
    match kind {
        Kind::Nothing => Ok(Vec::new(alloc)),
        Kind::Type => domain
            .types
            .as_slice()
            .iter()
            .map(|it| it.name)
            .collect(alloc),
        Kind::Predicate => domain
            .predicates
            .as_slice()
            .iter()
            .map(|it| it.name)
            .collect(alloc),
        Kind::Function => domain
            .functions
            .as_slice()
            .iter()
            .map(|it| it.name)
            .collect(alloc),
        Kind::Action => domain
            .actions
            .as_slice()
            .iter()
            .map(|it| it.name)
            .collect(alloc),
        Kind::Instance => ps_action::Known::instances(problem)
            .iter()
            .map(|it| it.0)
            .collect(alloc),
    }
}

/// Says which name of the kind that is wanted is close to a word, if one is. Answers whether one is.
pub fn say_meant(
    alloc: Global,
    names: &Names,
    expert: &Expert,
    problem: &Problem,
    word: &[u8],
    kind: Kind,
    page: &mut Page,
) -> Result<bool, AllocError> {
    let all = names_of(alloc, expert, problem, kind)?;
    let mut texts = Vec::new(alloc);
    for other in all.as_slice() {
        texts.push(name_text(names, *other))?;
    }
    say_close(alloc, word, texts.as_slice(), page)
}

/// Says how a word becomes an instance.
pub fn say_how_set(word: &[u8], page: &mut Page) -> Result<(), AllocError> {
    page.say("  A line 'set instance ")?;
    page.show(word)?;
    page.say(" TYPE' before this one makes it one.\n")
}

/// The edit of a line, if it is one.
pub fn edit_of(line: &Line) -> Option<&Edit> {
    match line {
        Line::Good(Command::Edit(edit)) => Some(edit),
        _ => None,
    }
}
