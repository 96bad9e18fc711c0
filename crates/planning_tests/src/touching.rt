//! What conditions read, and what effects and edits change.
use super::telling::{push_listed, push_name};
use super::worlds::{World, cond_of, edit_in, ground_of, line_of, world_of};
use ps_action::{Place, Touched};
use ps_eval::{changed_by, edited_by, reads};
use ps_machine::Line;
use ps_text::Names;
use ps_world::Conds;
use std::alloc::Global;
use std::process::Abort;
use std::test::Fail;

const WORK: &str = "(define (domain work)
(:types robot)
(:predicates (parked ?r - robot))
(:functions (load ?r - robot))
(:durative-action leave :parameters (?r - robot) :duration (= ?duration 1)
 :effect (and (at end (not (parked ?r))) (at end (increase (load ?r) 1)) (at end (parked ?r)))))";

const TWO: &str = "set instance leia robot
set instance r2d2 robot";

/// A place, an open argument of which is told as `?`.
fn push_place(names: &Names, place: &Place, text: &mut String) -> Result<(), Fail> {
    text.push_str(" (")?;
    push_name(names, place.head, text)?;
    for hole in place.args.as_slice() {
        text.push_str(" ")?;
        match hole {
            Some(name) => push_name(names, *name, text)?,
            None => text.push_str("?")?,
        }
    }
    text.push_str(")")?;
    Ok(())
}

/// Things one after another: an instance as `(N)`, a fact as `(P N)`, a value as `=(F N)`, and all instances as `(?)`.
fn told_touched(alloc: Global, names: &Names, all: &[Touched]) -> Result<String, Fail> {
    let mut text = String::new(alloc);
    for touched in all {
        match touched {
            Touched::Instance(name) => push_listed(names, *name, &[], &mut text)?,
            Touched::Fact(fact) => {
                push_listed(names, fact.head, fact.args.as_slice(), &mut text)?;
            }
            Touched::Value(term) => {
                text.push_str(" =")?;
                push_listed(names, term.head, term.args.as_slice(), &mut text)?;
            }
            Touched::Facts(place) => push_place(names, place, &mut text)?,
            Touched::Values(place) => {
                text.push_str(" =")?;
                push_place(names, place, &mut text)?;
            }
            Touched::Instances => text.push_str(" (?)")?,
        }
    }
    Ok(text)
}

const CONDITION: &str =
    "(and (parked leia) (not (parked r2d2)) (>= (+ (load leia) (- (load r2d2))) 0) (not (= leia r2d2)))";

const READ: &str =
    " (parked leia) (leia) (parked r2d2) (r2d2) = (load leia) (leia) = (load r2d2) (r2d2) (leia) (r2d2)";

fn is_touched(
    rt: &impl Abort,
    alloc: Global,
    names: &Names,
    all: &[Touched],
    want: &str,
) -> Result<(), Fail> {
    let told = told_touched(alloc, names, all)?;
    assert_eq!(rt; told.as_str(), want);
    Ok(())
}

fn conditions_of(alloc: Global, names: &mut Names) -> Result<Conds, Fail> {
    let cond = cond_of(alloc, names, CONDITION)?;
    Ok(Conds::of(vec![in alloc; cond]?))
}

fn all_read(alloc: Global, names: &mut Names) -> Result<Vec<Touched>, Fail> {
    let conds = conditions_of(alloc, names)?;
    Ok(reads(alloc, &conds)?)
}

fn reads_so(rt: &impl Abort, alloc: Global, names: &mut Names) -> Result<(), Fail> {
    let all = all_read(alloc, names)?;
    is_touched(rt, alloc, names, &all, READ)
}

fn all_changed(alloc: Global, world: &mut World) -> Result<Vec<Touched>, Fail> {
    let ground = ground_of(alloc, world, "(leave leia)")?;
    Ok(changed_by(alloc, ground.effects.at_end.as_slice())?)
}

fn changes_so(rt: &impl Abort, alloc: Global, world: &mut World) -> Result<(), Fail> {
    let all = all_changed(alloc, world)?;
    let want = " (parked leia) = (load leia) (parked leia)";
    is_touched(rt, alloc, &world.names, &all, want)
}

/// Lines, and what their edits change.
const EDITS: [(&str, &str); 8] = [
    ("set instance leia robot", " (leia)"),
    ("remove instance leia", " (leia)"),
    ("set predicate (parked leia)", " (parked leia)"),
    ("remove predicate (parked leia)", " (parked leia)"),
    ("set function (= (load leia) 1)", " = (load leia)"),
    ("remove function (load leia)", " = (load leia)"),
    ("set goal (parked leia)", ""),
    ("remove goal", ""),
];

/// What the edit of a line that is read changes, if it changes anything but the goal.
fn touched_in(line: &Line) -> Result<Option<Touched>, Fail> {
    Ok(edited_by(edit_in(line)?))
}

/// What the edit of a line changes, if it changes anything but the goal.
fn touched_by(alloc: Global, names: &mut Names, line: &str) -> Result<Option<Touched>, Fail> {
    let line = line_of(alloc, names, line)?;
    touched_in(&line)
}

fn told_edited(alloc: Global, names: &mut Names, line: &str) -> Result<String, Fail> {
    match touched_by(alloc, names, line)? {
        None => Ok(String::new(alloc)),
        Some(touched) => told_touched(alloc, names, &[touched]),
    }
}

/// That this is told of what the edit of a line changes.
fn edit_changes(
    rt: &impl Abort,
    alloc: Global,
    names: &mut Names,
    line: &str,
    want: &str,
) -> Result<(), Fail> {
    let told = told_edited(alloc, names, line)?;
    assert_eq!(rt; told.as_str(), want, "{line}");
    Ok(())
}

fn edits_so(rt: &impl Abort, alloc: Global, names: &mut Names) -> Result<(), Fail> {
    for (line, want) in &EDITS {
        edit_changes(rt, alloc, names, line, want)?;
    }
    Ok(())
}

fn touches_so(rt: &impl Abort, alloc: Global, world: &mut World) -> Result<(), Fail> {
    reads_so(rt, alloc, &mut world.names)?;
    changes_so(rt, alloc, world)?;
    edits_so(rt, alloc, &mut world.names)
}

#[test]
fn names_what_is_read_and_changed(rt: HostRuntime) -> Result<(), Fail> {
    let mut world = world_of(rt.alloc(), WORK, TWO)?;
    touches_so(&rt, rt.alloc(), &mut world)
}
