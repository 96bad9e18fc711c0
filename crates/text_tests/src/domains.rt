//! Domains that are read, printed, and read again; and the names that the table has after a text.
use super::tables::{assert_told, bytes_of, push_names};
use ps_pddl::{print_domain, read_domain};
use ps_text::Names;
use ps_world::Domain;
use std::alloc::{AllocError, Global};
use std::test::Fail;

const ROOMS: &str = "(define (domain rooms)
(:requirements :strips :typing :durative-actions)
(:types robot room)
(:predicates (robot_at ?r - robot ?ro - room) (connected ?a - room ?b - room) (battery_full ?r - robot))
(:durative-action move
 :parameters (?r - robot ?a - room ?b - room)
 :duration (= ?duration 5)
 :condition (and (at start (connected ?a ?b)) (at start (robot_at ?r ?a)) (over all (battery_full ?r)))
 :effect (and (at start (not (robot_at ?r ?a))) (at end (robot_at ?r ?b)))))";

const LOGISTICS: &str = "; trucks within cities, aeroplanes between them
(define (domain logistics)
(:requirements :typing :durative-actions :fluents)
(:types truck airplane - vehicle
        package vehicle - physobj
        airport location - place
        city place physobj - object)
(:predicates (in-city ?loc - place ?city - city) (at-place ?obj - physobj ?loc - place)
             (in ?pkg - package ?veh - vehicle))
(:functions (distance ?from ?to - place) - number (speed ?veh - vehicle) (load ?veh - vehicle) (capacity ?veh - vehicle))
(:durative-action load-truck
 :parameters (?pkg - package ?truck - truck ?loc - place)
 :duration (= ?duration 2.5)
 :condition (and (over all (at-place ?truck ?loc)) (at start (at-place ?pkg ?loc))
                 (at start (< (load ?truck) (capacity ?truck))))
 :effect (and (at start (not (at-place ?pkg ?loc))) (at start (increase (load ?truck) 1)) (at end (in ?pkg ?truck))))
(:durative-action drive
 :parameters (?truck - truck ?from ?to - place ?city - city)
 :duration (= ?duration (/ (distance ?from ?to) (speed ?truck)))
 :condition (and (at start (and (at-place ?truck ?from) (not (= ?from ?to))))
                 (over all (and (in-city ?from ?city) (in-city ?to ?city))))
 :effect (and (at start (not (at-place ?truck ?from))) (at end (at-place ?truck ?to)))))";

const ROVERS: &str = "(define (domain rovers)
(:requirements :typing :durative-actions :fluents)
(:types rover waypoint store camera mode lander objective)
(:constants colour high_res low_res - mode)
(:predicates (at-point ?x - rover ?y - waypoint) (can_traverse ?r - rover ?x ?y - waypoint) (visible ?w ?p - waypoint)
             (available ?r - rover) (in_sun ?w - waypoint) (supports ?c - camera ?m - mode) (taken ?o - objective ?m - mode))
(:functions (energy ?r - rover) (recharge-rate ?x - rover) (recharges))
(:durative-action navigate
 :parameters (?x - rover ?y - waypoint ?z - waypoint)
 :duration (= ?duration 5)
 :condition (and (and (over all (visible ?y ?z)) (at start (available ?x)))
                 (at start (and (can_traverse ?x ?y ?z) (at-point ?x ?y) (>= (energy ?x) 8))))
 :effect (and (at start (and (decrease (energy ?x) 8) (not (at-point ?x ?y)))) (at end (at-point ?x ?z))))
(:durative-action recharge
 :parameters (?x - rover ?w - waypoint)
 :duration (= ?duration (/ (- 80 (energy ?x)) (recharge-rate ?x)))
 :condition (and (at start (at-point ?x ?w)) (over all (at-point ?x ?w)) (at start (in_sun ?w)) (at start (<= (energy ?x) 80)))
 :effect (and (at end (increase (energy ?x) (* 10 (recharge-rate ?x)))) (at start (increase (recharges) 1))))
(:durative-action take_image
 :parameters (?c - camera ?o - objective)
 :duration (= ?duration 7)
 :condition (over all (supports ?c high_res))
 :effect (at end (taken ?o high_res))))";

const SATELLITE: &str = "(define (domain satellite)
(:requirements :typing :durative-actions)
(:types satellite direction instrument mode)
(:predicates (on_board ?i - instrument ?s - satellite) (pointing ?s - satellite ?d - direction) (power_avail ?s - satellite)
             (power_on ?i - instrument) (calibrated ?i - instrument))
(:functions (slew_time ?a ?b - direction) (fuel ?s - satellite))
(:durative-action turn_to
 :parameters (?s - satellite ?d_new ?d_prev - direction)
 :duration (= ?duration (slew_time ?d_prev ?d_new))
 :condition (and (at start (pointing ?s ?d_prev)) (over all (not (= ?d_new ?d_prev))) (at end (> (fuel ?s) (- 0.5))))
 :effect (and (at end (pointing ?s ?d_new)) (at start (not (pointing ?s ?d_prev)))
              (at end (scale-down (fuel ?s) 1.001)) (at end (assign (fuel ?s) (+ (fuel ?s) -0.001)))))
(:durative-action switch_off
 :parameters (?i - instrument ?s - satellite)
 :duration (= ?duration 1)
 :condition ()
 :effect ())
(:durative-action wait :parameters () :duration (= ?duration 1)))";

/// A domain with every kind of part, in its canonical text.
const CANONICAL: &str = "(define (domain rooms)
(:types robot - object room - object)
(:constants hall - room)
(:predicates (robot_at ?r - robot ?to - room) (quiet))
(:functions (battery ?r - robot) (fuel))
(:durative-action move
:parameters (?r - robot ?to - room)
:duration (= ?duration (* 2.000 (- (battery ?r))))
:condition (and (at start (robot_at ?r hall)) (at start (not (= ?to hall))) \
(over all (and)) (over all (>= (battery ?r) 0.500)) \
(at end (and (< (battery ?r) 3.000) (<= (battery ?r) 3.000))) \
(at end (= (battery ?r) 3.000)) (at end (> (battery ?r) 3.000)))
:effect (and (at start (not (robot_at ?r hall))) (at start (decrease (battery ?r) -1.500)) \
(at end (robot_at ?r ?to)) \
(at end (assign (battery ?r) (+ -0.001 (fuel)))) \
(at end (increase (battery ?r) (- -0.001 (fuel)))) \
(at end (scale-up (battery ?r) (* -0.001 (fuel)))) \
(at end (scale-down (battery ?r) (/ -0.001 (fuel))))))
(:durative-action rest
:parameters ()
:duration (= ?duration 1.000)
:condition (and)
:effect (and))
)
";

/// Texts, and why they declare no domain, with the names that the table has after that.
const NUMBERED: &str = "\
(define (domain D) ; comment| (:types robot - Object) (:predicates (at ?r - ROBOT))) -> None: object define domain d robot at r
(define (Domain d)) -> None: object define domain d
(define (domain d) (:types a b a)) -> Some(Refused(Twice { at: 31, name: Name(4) })): object define domain d a b
(define (domain d) (:types a - wheel)) -> Some(Refused(Unknown { at: 31, name: Name(5) })): object define domain d a wheel
(define (domain d) x y -> Some(Refused(Unexpected { at: 19 })): object define domain d x y
(define _ x) -> Some(Refused(Lex { at: 8 })): object";

/// Domains, and whether the text is the canonical one.
const DOMAINS: [(&str, bool); 5] = [
    (ROOMS, false),
    (LOGISTICS, false),
    (ROVERS, false),
    (SATELLITE, false),
    (CANONICAL, true),
];

/// Whether a text is read as this domain.
fn is_read_as(
    alloc: Global,
    names: &mut Names,
    text: &[u8],
    domain: &Domain,
) -> Result<bool, Fail> {
    let again = read_domain(alloc, names, text)?;
    Ok(again == *domain)
}

/// Whether the canonical text of a domain is read as that domain, and whether it is this text.
fn compare(
    alloc: Global,
    names: &mut Names,
    domain: &Domain,
    text: &str,
) -> Result<(bool, bool), Fail> {
    let printed = print_domain(alloc, names, domain)?;
    let is_same = printed.as_slice() == text.as_bytes();
    Ok((is_read_as(alloc, names, &printed, domain)?, is_same))
}

fn read_and_compare(alloc: Global, names: &mut Names, text: &str) -> Result<(bool, bool), Fail> {
    let domain = read_domain(alloc, names, text.as_bytes())?;
    compare(alloc, names, &domain, text)
}

/// Whether the domain that a text declares is read back from its canonical text, and whether the text is that one.
fn is_read_back(alloc: Global, text: &str) -> Result<(bool, bool), Fail> {
    let mut names = Names::new(alloc)?;
    read_and_compare(alloc, &mut names, text)
}

fn told_with(alloc: Global, names: &mut Names, bytes: &[u8]) -> Result<String, AllocError> {
    let refusal = read_domain(alloc, names, bytes).err();
    let mut told = format!(in alloc; "{refusal:?}:")?;
    push_names(&mut told, names)?;
    Ok(told)
}

fn told_of_bytes(alloc: Global, bytes: &[u8]) -> Result<String, AllocError> {
    let mut names = Names::new(alloc)?;
    told_with(alloc, &mut names, bytes)
}

fn told(alloc: Global, text: &str) -> Result<String, AllocError> {
    let bytes = bytes_of(alloc, text)?;
    told_of_bytes(alloc, &bytes)
}

#[test]
fn domains_are_read_back(rt: HostRuntime) -> Result<(), Fail> {
    for (text, is_canonical) in DOMAINS {
        let found = is_read_back(rt.alloc(), text)?;
        assert_eq!(rt; found, (true, is_canonical), "{text}");
    }
    Ok(())
}

#[test]
fn names_are_numbered_in_order(rt: HostRuntime) -> Result<(), Fail> {
    assert_told(&rt, rt.alloc(), NUMBERED, told)
}
