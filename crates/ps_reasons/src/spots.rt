//! Which word of a line an edit, an act or a goal is refused for.
use ps_action::{Act, GroundRefusal, Known};
use ps_domain::Expert;
use ps_journal::name_text;
use ps_problem::Problem;
use ps_remarks::Said;
use ps_text::Names;
use ps_world::{Decl, Edit, EditRefusal, Fact, Name};

/// The type above all others.
const OBJECT: Name = Name(0);

/// The place of a name among the arguments of a fact, or 0.
fn place_of(args: &[Name], name: Name) -> usize {
    args.iter().position(|own| *own == name).unwrap_or(0)
}

/// The number of the word of a fact, where its head is the word with this number, for which an edit is refused.
fn spot_of_fact(head: usize, fact: &Fact, why: EditRefusal) -> usize {
    let first = head.saturating_add(1);
    match why {
        EditRefusal::NoInstance(name) => {
            first.saturating_add(place_of(fact.args.as_slice(), name))
        }
        EditRefusal::WrongType { at } => first.saturating_add(at),
        _ => head,
    }
}

/// The number of the word of an act, where its action is the word with this number, for which it can't be grounded.
pub fn spot_of_act(head: usize, act: &Act, why: GroundRefusal) -> usize {
    let first = head.saturating_add(1);
    match why {
        GroundRefusal::NoInstance(name) => {
            first.saturating_add(place_of(act.args.as_slice(), name))
        }
        GroundRefusal::WrongType { at } => first.saturating_add(at),
        GroundRefusal::NoAction | GroundRefusal::Arity { .. } => head,
    }
}

/// A fact or a function term of a goal: the number of its head, whether it is a function, and how many arguments it has.
#[derive(Clone, Copy)]
struct Item {
    head: usize,
    is_function: bool,
    count: usize,
}

/// Whether the word after a parenthesis makes a number, or compares numbers.
fn is_sign(said: &Said<'_>, i: usize) -> bool {
    !said.is_name(i) && !said.is_variable(i) && !said.is(i, b"(") && !said.is(i, b")")
}

/// Whether a word is that of a form of conditions.
fn is_form(said: &Said<'_>, i: usize) -> bool {
    let forms: [&[u8]; 6] = [b"and", b"or", b"not", b"imply", b"exists", b"forall"];
    forms.iter().any(|form| said.is(i, form))
}

/// How many words follow up to the next parenthesis.
fn count_up_to_parenthesis(said: &Said<'_>, from: usize) -> usize {
    let mut count: usize = 0;
    for i in from..said.len() {
        if said.is(i, b")") || said.is(i, b"(") {
            break;
        }
        count = count.saturating_add(1);
    }
    count
}

/// The heads of the parentheses that are open before a word, as far as they make or compare numbers: whether the innermost does.
fn is_within_sign(said: &Said<'_>, before: usize) -> bool {
    let mut closed: usize = 0;
    for back in 0..before {
        let i = before.saturating_sub(back).saturating_sub(1);
        if said.is(i, b")") {
            closed = closed.saturating_add(1);
        } else if said.is(i, b"(") {
            if closed == 0 {
                return is_sign(said, i.saturating_add(1));
            }
            closed = closed.saturating_sub(1);
        }
    }
    false
}

/// The fact or the function term that begins at a parenthesis, if one does.
fn item_at(said: &Said<'_>, i: usize) -> Option<Item> {
    let head = i.saturating_add(1);
    if !said.is(i, b"(") || !said.is_name(head) || is_form(said, head) {
        return None;
    }
    Some(Item {
        head,
        is_function: is_within_sign(said, i),
        count: count_up_to_parenthesis(said, head.saturating_add(1)),
    })
}

/// What declares the head of an item.
fn decl_of<'a>(names: &Names, expert: &'a Expert, said: &Said<'_>, item: Item) -> Option<&'a Decl> {
    let domain = expert.domain();
    let all = if item.is_function {
        domain.functions.as_slice()
    } else {
        domain.predicates.as_slice()
    };
    all.iter()
        .find(|decl| said.is(item.head, name_text(names, decl.name)))
}

/// Whether a word stands in the list of variables of a quantifier.
fn is_bound_at(said: &Said<'_>, i: usize) -> bool {
    for back in 0..i {
        let before = i.saturating_sub(back).saturating_sub(1);
        if said.is(before, b"(") {
            let head = before.saturating_sub(1);
            return before > 0 && (said.is(head, b"exists") || said.is(head, b"forall"));
        }
    }
    false
}

/// The type that a list of variables gives those before the next type in it, from a word on.
fn type_after(names: &Names, expert: &Expert, said: &Said<'_>, from: usize) -> Option<Name> {
    for i in from..said.len() {
        if said.is(i, b")") {
            break;
        }
        if said.is(i, b"-") {
            return type_of_word(names, expert, said, i.saturating_add(1));
        }
    }
    Some(OBJECT)
}

/// The type of the variable of a word, by the last list before it that binds it.
fn type_of_variable(names: &Names, expert: &Expert, said: &Said<'_>, at: usize) -> Option<Name> {
    let mut found = None;
    for i in 0..at {
        if said.is(i, said.word(at)) && is_bound_at(said, i) {
            found = type_after(names, expert, said, i);
        }
    }
    found
}

/// The type of the name of a word.
fn type_of_word(names: &Names, expert: &Expert, said: &Said<'_>, i: usize) -> Option<Name> {
    if said.is(i, b"object") {
        return Some(OBJECT);
    }
    let types = expert.domain().types.as_slice();
    types
        .iter()
        .map(|own| own.name)
        .find(|own| said.is(i, name_text(names, *own)))
}

/// The type of the instance or the variable of a word.
pub fn type_at(
    names: &Names,
    expert: &Expert,
    problem: &Problem,
    said: &Said<'_>,
    i: usize,
) -> Option<Name> {
    if said.is_variable(i) {
        return type_of_variable(names, expert, said, i);
    }
    let mut instances = Known::instances(problem).iter();
    let found = instances.find(|own| said.is(i, name_text(names, own.0)));
    found.map(|own| own.1)
}

/// The parameter of an item's argument, counted from 0, where it doesn't have the type of the argument or one above it.
fn is_misfit(
    names: &Names,
    expert: &Expert,
    problem: &Problem,
    said: &Said<'_>,
    item: Item,
    at: usize,
) -> bool {
    let decl = decl_of(names, expert, said, item);
    let want = decl.and_then(|decl| decl.params.as_slice().get(at));
    let word = item.head.saturating_add(1).saturating_add(at);
    match (want, type_at(names, expert, problem, said, word)) {
        (Some(want), Some(own)) => !expert.is_subtype(own, want.kind),
        _ => false,
    }
}

/// Whether an item has the fault for which a goal is refused.
fn is_at_fault(
    names: &Names,
    expert: &Expert,
    problem: &Problem,
    said: &Said<'_>,
    item: Item,
    why: EditRefusal,
) -> bool {
    let decl = decl_of(names, expert, said, item);
    match why {
        EditRefusal::NoPredicate => !item.is_function && decl.is_none(),
        EditRefusal::NoFunction => item.is_function && decl.is_none(),
        EditRefusal::Arity { want, got } => match decl {
            Some(decl) => decl.params.as_slice().len() == want && item.count == got,
            None => false,
        },
        EditRefusal::WrongType { at } => {
            at < item.count && is_misfit(names, expert, problem, said, item, at)
        }
        _ => false,
    }
}

/// Whether a word is a type of a list of variables that isn't declared.
fn is_no_type(names: &Names, expert: &Expert, said: &Said<'_>, i: usize) -> bool {
    let after_minus = match i.checked_sub(1) {
        Some(before) => said.is(before, b"-"),
        None => false,
    };
    after_minus && said.is_name(i) && type_of_word(names, expert, said, i).is_none()
}

/// Whether a word is this name as an argument.
fn is_argument(names: &Names, said: &Said<'_>, i: usize, name: Name) -> bool {
    let Some(before) = i.checked_sub(1) else {
        return false;
    };
    said.is(i, name_text(names, name)) && !said.is(before, b"(") && !said.is(before, b"-")
}

/// The number of the word of a line `set goal ..` for which it is refused.
fn spot_of_goal(
    names: &Names,
    expert: &Expert,
    problem: &Problem,
    said: &Said<'_>,
    why: EditRefusal,
) -> Option<usize> {
    for i in 2..said.len() {
        let found = match why {
            EditRefusal::NoType if is_no_type(names, expert, said, i) => Some(i),
            EditRefusal::NoInstance(name) if is_argument(names, said, i, name) => Some(i),
            EditRefusal::NoType | EditRefusal::NoInstance(_) => None,
            _ => match item_at(said, i) {
                Some(item) if is_at_fault(names, expert, problem, said, item, why) => {
                    Some(spot_of_item(item, why))
                }
                _ => None,
            },
        };
        if found.is_some() {
            return found;
        }
    }
    None
}

/// The number of the word of an item that is at fault.
fn spot_of_item(item: Item, why: EditRefusal) -> usize {
    match why {
        EditRefusal::WrongType { at } => item.head.saturating_add(1).saturating_add(at),
        _ => item.head,
    }
}

/// What declares the head of the fact or the function term of which this word is an argument.
pub fn decl_around<'a>(
    names: &Names,
    expert: &'a Expert,
    said: &Said<'_>,
    i: usize,
) -> Option<&'a Decl> {
    for back in 0..i {
        let before = i.saturating_sub(back).saturating_sub(1);
        if said.is(before, b"(") {
            let item = item_at(said, before)?;
            return decl_of(names, expert, said, item);
        }
    }
    None
}

/// The number of the word for which an edit is refused, counted from 0, in a line of a script that makes it.
pub fn spot_of_edit(
    names: &Names,
    expert: &Expert,
    problem: &Problem,
    said: &Said<'_>,
    edit: &Edit,
    why: EditRefusal,
) -> usize {
    match edit {
        Edit::AddInstance(..) if why == EditRefusal::NoType => 3,
        Edit::AddInstance(..) | Edit::RemoveInstance(_) => 2,
        Edit::AddFact(fact) | Edit::RemoveFact(fact) | Edit::RemoveValue(fact) => {
            spot_of_fact(3, fact, why)
        }
        Edit::SetValue(fact, _) => spot_of_fact(5, fact, why),
        Edit::SetGoal(_) => spot_of_goal(names, expert, problem, said, why).unwrap_or(0),
        Edit::RemoveGoal => 0,
    }
}
