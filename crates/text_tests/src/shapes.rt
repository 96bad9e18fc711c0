//! What judging words by the grammar answers: the first fault, counted in words.
use super::tables::{assert_told, lexemes_in};
use ps_grammar::{GoalPart, Mark, Symbol, first_fault, judge};
use std::alloc::{AllocError, Global};
use std::test::Fail;

/// Texts, and why they aren't of a domain's shape.
const DOMAINS: &str = "\
( define ( domain n ) ) -> Ok(())
( define ( problem n ) ) -> Err(Refused(Unsupported { at: 3, what: Problem }))
( define ( at n ) ) -> Err(Refused(Unexpected { at: 3 }))
 -> Err(Refused(Unexpected { at: 0 }))
( define ( domain n ) -> Err(Refused(Unexpected { at: 6 }))
( define ( domain n ) ) x -> Err(Refused(Unexpected { at: 7 }))
( define ( domain n ) ) #t -> Err(Refused(Unsupported { at: 7, what: Continuous }))
( define ( domain n ) ( :types a b - c d ) ( :predicates ( p ?x ?y - a ) ) ( :requirements :typing :action ) ) -> Ok(())
( define ( domain n ) ( :types a - ( either a b ) ) ) -> Err(Refused(Unsupported { at: 11, what: Either }))
( define ( domain n ) ( :types a - ( a ) ) ) -> Err(Refused(Unexpected { at: 10 }))
( define ( domain n ) ( :action a ) ) -> Err(Refused(Unsupported { at: 7, what: Action }))
( define ( domain n ) ( :durative-action a :parameters ( ) :duration ( ) ) ) -> Err(Refused(Unsupported { at: 14, what: Duration }))";

/// Goals, and the first word that doesn't fit.
const GOALS: &str = "\
( and ( p a ) ( not ( q ) ) ( = a b ) ( = ( f a ) 1 ) ( = 1 ( f ) ) ) -> Ok(None)
( <= ( - 1 ) ( + ( f a ) ( * 1 ( / 1 ( - 1 ( f ) ) ) ) ) ) -> Ok(None)
( p a b c d e f g ) -> Ok(Some(8))
( = a 1 ) -> Ok(Some(3))
( preference a ) -> Ok(None)
( when ) -> Ok(Some(1))
( p ?x ) -> Ok(None)
( and ( p ) -> Ok(Some(5))
( p ) a -> Ok(Some(3))
 -> Ok(Some(0))";

/// What `(= (FACT) NUMBER)` is read by, and the first word that doesn't fit.
const VALUES: &str = "\
( = ( f a ) 1 ) -> Ok(None)
( = 1 1 ) -> Ok(Some(2))
( = ( f a ) b ) -> Ok(Some(6))
( = ( f a ) 1 -> Ok(Some(7))";

/// What the words of a text are to the grammar.
fn marks_of(alloc: Global, text: &str) -> Result<Vec<Mark>, AllocError> {
    match lexemes_in(alloc, text) {
        Ok(found) => found.iter().map(|word| word.mark).collect(alloc),
        Err(_) => Err(AllocError),
    }
}

fn told_of_domain(alloc: Global, text: &str) -> Result<String, AllocError> {
    let marks = marks_of(alloc, text)?;
    format!(in alloc; "{:?}", judge(alloc, &marks))
}

fn told_of_goal(alloc: Global, text: &str) -> Result<String, AllocError> {
    let marks = marks_of(alloc, text)?;
    let start = [Symbol::InGoal(GoalPart::Condition)];
    format!(in alloc; "{:?}", first_fault(alloc, &start, &marks))
}

fn told_of_value(alloc: Global, text: &str) -> Result<String, AllocError> {
    let marks = marks_of(alloc, text)?;
    let start = [
        Symbol::The(Mark::Open),
        Symbol::The(Mark::Equal),
        Symbol::InGoal(GoalPart::Atom),
        Symbol::InGoal(GoalPart::Value),
        Symbol::The(Mark::Close),
    ];
    format!(in alloc; "{:?}", first_fault(alloc, &start, &marks))
}

#[test]
fn shapes_are_judged(rt: HostRuntime) -> Result<(), Fail> {
    assert_told(&rt, rt.alloc(), DOMAINS, told_of_domain)?;
    assert_told(&rt, rt.alloc(), GOALS, told_of_goal)?;
    assert_told(&rt, rt.alloc(), VALUES, told_of_value)
}
