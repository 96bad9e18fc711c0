//! Places: heads with arguments, of which some may be open.
ghost use Rattle.std.specs.Prelude.{◌≡◌, ◌≤◌, Some, length, map};
ghost use Rattle.std.specs.Option.{SomeIff};
ghost use Rattle.std.specs.List.{list_any};
ghost use Rattle.ps_action.specs.Places.{closed, has_var, hole_meets, hole_of, holes_meet, is_var, place_of, places_meet};

use ps_world::{Fact, Lifted, MOST_ARGUMENTS, Name, Term, Terms};
use std::cmp::Ordering;
use std::marker::Model;

/// The arguments at a place: at most 6, each a name or open, which contracts see as their list.
#[derive(Clone, Copy)]
pub struct Holes {
    names: [Option<Name>; MOST_ARGUMENTS],
    count: usize,
}

impl Model for Holes {
    ghost use Rattle.std.specs.Prelude.{List, Option};
    ghost use Rattle.ps_world.specs.declared.names.Name.{Name};

    ghost Value = { List (Option Name) };

    ghost use Rattle.ps_action.specs.Holes.{IsHoles, holes_of, fields_of, fields_of-holes_of};

    ghost view = { holes_of };

    ghost invariant = { IsHoles };

    ghost inverse = { fields_of };

    ghost inverse_ok = { fields_of-holes_of };
}

impl Holes {
    /// These arguments, or None exactly where there are more than 6.
    fn of(holes: &[Option<Name>]) -> Option<Holes>
        ensures { SomeIff result (length holes.now ≤ MOST_ARGUMENTS) holes.now }
    {
        if holes.len() > MOST_ARGUMENTS {
            return None;
        }
        let mut filled = [None; MOST_ARGUMENTS];
        filled[..holes.len()].copy_from_slice(holes);
        Some(Holes {
            names: filled,
            count: holes.len(),
        })
    }

    /// The arguments in order.
    pub fn as_slice(&self) -> &[Option<Name>]
        ensures { result.now ≡ self.now }
    {
        &self.names[..self.count]
    }
}

impl PartialEq for Holes {
    ghost use Rattle.std.specs.Cmp.Lexicographic.{pointwise, lists_per};
    ghost use Rattle.std.specs.Cmp.Rules.{comparing};
    ghost use Rattle.std.specs.Option.{option_eq};
    ghost use Rattle.std.proofs.Common.{rules};
    ghost use Rattle.ps_world.specs.Names.{same_name};

    ghost eq = { pointwise (option_eq same_name) };

    ghost laws = { lists_per (Prim.search (comparing, rules)) };

    fn eq(&self, other: &Self) -> bool {
        self.as_slice() == other.as_slice()
    }
}

impl Eq for Holes {
    ghost use Rattle.std.specs.Cmp.Lexicographic.{lists_equiv};
    ghost use Rattle.std.specs.Cmp.Rules.{comparing};
    ghost use Rattle.std.proofs.Common.{rules};

    ghost laws = { lists_equiv (Prim.search (comparing, rules)) };
}

impl PartialOrd for Holes {
    ghost use Rattle.std.specs.Ordering.{as_partial_cmp};
    ghost use Rattle.std.specs.Cmp.{partial_order_from_agreeing_total};
    ghost use Rattle.std.specs.Cmp.Lexicographic.{slice_cmp, lists_total, lists_ties, options_total};
    ghost use Rattle.std.specs.Cmp.Rules.{comparing};
    ghost use Rattle.std.specs.Option.{option_cmp};
    ghost use Rattle.std.proofs.Common.{rules};
    ghost use Rattle.ps_world.specs.Names.{name_cmp};

    ghost partial_cmp = { as_partial_cmp (slice_cmp (option_cmp name_cmp)) };

    ghost laws = { partial_order_from_agreeing_total (slice_cmp (option_cmp name_cmp)) (lists_total (options_total (Prim.search (comparing, rules)))) (Prim.search (comparing, rules)) (lists_ties (option_cmp name_cmp) (Prim.search (comparing, rules))) };

    fn partial_cmp(&self, other: &Self) -> Option<Ordering> {
        Some(self.cmp(other))
    }
}

impl Ord for Holes {
    ghost use Rattle.std.specs.Cmp.Lexicographic.{slice_cmp, lists_total, lists_ties, options_total};
    ghost use Rattle.std.specs.Cmp.Rules.{comparing};
    ghost use Rattle.std.specs.Option.{option_cmp};
    ghost use Rattle.std.proofs.Common.{rules};
    ghost use Rattle.ps_world.specs.Names.{name_cmp};

    ghost cmp = { slice_cmp (option_cmp name_cmp) };

    ghost total = { lists_total (options_total (Prim.search (comparing, rules))) };

    ghost matches_partial_cmp = { Prim.search (comparing, rules) };

    ghost matches_eq = { lists_ties (option_cmp name_cmp) (Prim.search (comparing, rules)) };

    fn cmp(&self, other: &Self) -> Ordering {
        self.as_slice().cmp(other.as_slice())
    }
}

/// A predicate or a function, and arguments of which some may be open.
#[derive(Clone, Copy, PartialEq, Eq, PartialOrd, Ord)]
pub struct Place {
    pub head: Name,
    pub args: Holes,
}

/// Whether a term is a variable.
fn is_var(term: &Term) -> bool
    ensures { result ≡ is_var term.now }
{
    match term {
        Term::Var(_) => true,
        Term::Const(_) => false,
    }
}

/// Whether a variable stands in a head's arguments. It takes no memory.
pub(crate) fn has_var(lifted: &Lifted) -> bool
    ensures { result ≡ has_var lifted.now }
{
    lifted.terms.as_slice().iter().any(|term| is_var(term))
}

/// The name of a term, if it is no variable.
fn hole_of(term: Term) -> Option<Name>
    ensures { result ≡ hole_of term }
{
    match term {
        Term::Var(_) => None,
        Term::Const(name) => Some(name),
    }
}

/// The arguments at the place of these terms: open where a variable stands.
fn holes_of(terms: &Terms) -> Holes
    ensures { result ≡ map hole_of terms.now }
{
    let count = terms.len();
    let terms = terms.as_slice();
    let mut holes = [None; MOST_ARGUMENTS];
    for i in 0..count {
        holes[i] = hole_of(terms[i]);
    }
    match Holes::of(&holes[..count]) {
        Some(all) => all,
        None => unreachable!(),
    }
}

/// Whether two arguments are the same, or one is open.
fn hole_meets(one: Option<Name>, other: Option<Name>) -> bool
    ensures { result ≡ hole_meets one other }
{
    match (one, other) {
        (Some(m), Some(n)) => m == n,
        _ => true,
    }
}

/// Whether this is so at each argument, and there are as many.
fn holes_meet(one: &[Option<Name>], other: &[Option<Name>]) -> bool
    ensures { result ≡ holes_meet one.now other.now }
{
    match (one.split_first(), other.split_first()) {
        (Some((hole, rest)), Some((with, more))) => {
            hole_meets(*hole, *with) && holes_meet(rest, more)
        }
        (None, None) => true,
        _ => false,
    }
}

/// The same of names, none of which is open.
fn holes_meet_names(holes: &[Option<Name>], names: &[Name]) -> bool
    ensures { result ≡ holes_meet holes.now (map Some names.now) }
{
    match (holes.split_first(), names.split_first()) {
        (Some((hole, rest)), Some((name, more))) => {
            hole_meets(*hole, Some(*name)) && holes_meet_names(rest, more)
        }
        (None, None) => true,
        _ => false,
    }
}

impl Place {
    /// The place of a head with terms. It takes no memory.
    pub fn of(lifted: &Lifted) -> Place
        ensures { result ≡ place_of lifted.now }
    {
        Place {
            head: lifted.head,
            args: holes_of(&lifted.terms),
        }
    }

    /// Whether a fact or a function term stands at the place: the heads are the same, there are as many arguments, and each argument of
    /// the place is open or the same. It takes no memory.
    pub fn has(&self, fact: &Fact) -> bool
        ensures { result ≡ places_meet self.now (closed fact.now) }
    {
        self.head == fact.head && holes_meet_names(self.args.as_slice(), fact.args.as_slice())
    }

    /// Whether two places meet: the heads are the same, there are as many arguments, and at each one both are the same or one is
    /// open. It takes no memory.
    pub fn meets(&self, other: &Place) -> bool
        ensures { result ≡ places_meet self.now other.now }
    {
        self.head == other.head && holes_meet(self.args.as_slice(), other.args.as_slice())
    }
}
