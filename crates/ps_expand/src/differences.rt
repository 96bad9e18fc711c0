//! What differs between what is known at the start and at another time.
ghost use Rattle.std.specs.Prelude.{◌≡◌, ◌++◌, [], None, filter, filter_map, fold, IfOk};
ghost use Rattle.std.specs.Map.{keys_of};
ghost use Rattle.ps_world.specs.Knowledge.{value_in};
ghost use Rattle.ps_problem.specs.Puts.{fresh_in};
ghost use Rattle.ps_expand.specs.Differences.{HaveNewFacts, HaveNewValues, IsLed, Rise, back, difference, forth, is_new, is_worth, new_in, new_value, no_difference};
ghost use Rattle.ps_expand.specs.Orders.{facts_fed, values_fed};

use ps_ground::Atoms;
use ps_problem::{Change, Problem};
use ps_world::{Duplicate, Fact, Num, Seq};
use std::alloc::{AllocError, Global};
use std::hash::{Hash, Hasher};

/// The facts that came and those that went, and so for values, each list in its order. A value that changed went and came.
#[derive(Drop)]
pub struct Difference {
    pub came: Seq<Fact>,
    pub went: Seq<Fact>,
    pub given: Seq<(Fact, Num)>,
    pub lost: Seq<(Fact, Num)>,
}

impl PartialEq for Difference {
    ghost use Rattle.std.specs.Cmp.{partial_equiv_from_equiv, eq_by_cmp_equiv};
    ghost use Rattle.ps_expand.specs.Orders.{differences_total, same_difference};

    ghost eq = { same_difference };

    ghost laws = { partial_equiv_from_equiv (eq_by_cmp_equiv differences_total) };

    fn eq(&self, other: &Self) -> bool {
        self.came.as_slice().cmp(other.came.as_slice()).is_eq()
            && self.went.as_slice().cmp(other.went.as_slice()).is_eq()
            && self.given.as_slice().cmp(other.given.as_slice()).is_eq()
            && self.lost.as_slice().cmp(other.lost.as_slice()).is_eq()
    }
}

impl Eq for Difference {
    ghost use Rattle.std.specs.Cmp.{eq_by_cmp_equiv};
    ghost use Rattle.ps_expand.specs.Orders.{differences_total};

    ghost laws = { eq_by_cmp_equiv differences_total };
}

impl Hash for Difference {
    ghost use Rattle.ps_expand.specs.Orders.{difference_fed, differences_fed_alike};

    ghost hash_input = { difference_fed };

    ghost respects_eq = { differences_fed_alike };

    fn hash<H: Hasher>(&self, state: &mut H) {
        hash_facts(self.came.as_slice(), state);
        hash_facts(self.went.as_slice(), state);
        hash_values(self.given.as_slice(), state);
    }
}

/// Feeds facts to a hash.
fn hash_facts<H: Hasher>(facts: &[Fact], state: &mut H)
    ensures { state.new ≡ fold H.write state.old (facts_fed facts.now) }
{
    for fact in facts {
        fact.head.0.hash(state);
        fact.args.as_slice().hash(state);
    }
}

/// Feeds values to a hash. The terms are mostly the same from state to state, so that the numbers alone tell them apart.
fn hash_values<H: Hasher>(values: &[(Fact, Num)], state: &mut H)
    ensures { state.new ≡ fold H.write state.old (values_fed values.now) }
{
    for (_, number) in values {
        number.milli().hash(state);
    }
}

/// Whether a fact is in the second and not in the first.
fn is_new(old: &Problem, new: &Problem, fact: &Fact) -> bool
    ensures { result ≡ is_new old.now.facts new.now.facts fact.now }
{
    new.has(fact) && !old.has(fact)
}

/// Those of these facts that are in the second and not in the first.
fn new_among(
    alloc: Global,
    old: &Problem,
    new: &Problem,
    facts: &[Fact],
) -> Result<Seq<Fact>, AllocError>
    ensures { IfOk result (λ v. v ≡ filter (is_new old.now.facts new.now.facts) facts.now) }
{
    let mut all = Seq::new(alloc);
    for fact in facts {
        if is_new(old, new, fact) {
            all.push(*fact)?;
        }
    }
    Ok(all)
}

/// The facts that are in the second and not in the first, all of which are among these and those.
fn new_facts(
    old: &Problem,
    new: &Problem,
    these: &[Fact],
    those: &[Fact],
) -> Result<Seq<Fact>, AllocError>
    requires rise { Rise new.now }
    requires all { HaveNewFacts old.now.facts new.now.facts (these.now ++ those.now) }
    ensures { IfOk result (λ v. v ≡ fresh_in old.now.facts new.now.facts) }
{
    let alloc = old.allocator();
    let among = Atoms::of(alloc, these, those)?;
    new_among(alloc, old, new, among.as_slice())
}

/// Whether a term has this value.
fn is_worth(problem: &Problem, term: &Fact, number: Num) -> bool
    ensures { result ≡ is_worth number (value_in problem.now term.now) }
{
    match problem.value(term) {
        Some(other) => other == number,
        None => false,
    }
}

/// A term with its value in the second, unless it has that in the first.
fn new_value(old: &Problem, new: &Problem, term: &Fact) -> Option<(Fact, Num)>
    ensures { result ≡ new_value old.now.values new.now.values term.now }
{
    let number = new.value(term)?;
    if is_worth(old, term, number) {
        return None;
    }
    Some((*term, number))
}

/// Those of these terms that have values in the second which they don't have in the first, with these.
fn valued_among(
    alloc: Global,
    old: &Problem,
    new: &Problem,
    terms: &[Fact],
) -> Result<Seq<(Fact, Num)>, AllocError>
    ensures { IfOk result (λ v. v
        ≡ filter_map (new_value old.now.values new.now.values) terms.now) }
{
    let mut all = Seq::new(alloc);
    for term in terms {
        if let Some(value) = new_value(old, new, term) {
            all.push(value)?;
        }
    }
    Ok(all)
}

/// The values that are in the second and not in the first, whose terms all are among those of these values and those terms.
fn new_values(
    old: &Problem,
    new: &Problem,
    these: &[(Fact, Num)],
    those: &[Fact],
) -> Result<Seq<(Fact, Num)>, AllocError>
    requires rise { Rise new.now }
    requires all { HaveNewValues old.now.values new.now.values
        (keys_of these.now ++ those.now) }
    ensures { IfOk result (λ v. v ≡ new_in old.now.values new.now.values) }
{
    let alloc = old.allocator();
    let valued = terms(alloc, these)?;
    let among = Atoms::of(alloc, valued.as_slice(), those)?;
    valued_among(alloc, old, new, among.as_slice())
}

/// The terms of values.
fn terms(alloc: Global, values: &[(Fact, Num)]) -> Result<Seq<Fact>, AllocError>
    ensures { IfOk result (λ v. v ≡ keys_of values.now) }
{
    let mut all = Seq::new(alloc);
    for (term, _) in values {
        all.push(*term)?;
    }
    Ok(all)
}

/// The terms whose values a change takes or gives.
fn touched_by(alloc: Global, change: &Change) -> Result<Vec<Fact>, AllocError>
    ensures { IfOk result (λ v. v.items ≡ change.now.gone ++ keys_of change.now.values) }
{
    let mut touched = Vec::from_slice(alloc, change.gone.as_slice())?;
    let valued = terms(alloc, change.values.as_slice())?;
    touched.extend_from_slice(valued.as_slice())?;
    Ok(touched)
}

/// The change that takes out and puts in these facts and values.
fn change(
    alloc: Global,
    adds: &Seq<Fact>,
    deletes: &Seq<Fact>,
    values: &Seq<(Fact, Num)>,
    gone: &Seq<(Fact, Num)>,
) -> Result<Change, AllocError>
    ensures { IfOk result (λ c. c ≡ record {
      instances_in = [];
      instances_out = [];
      adds = adds.now;
      deletes = deletes.now;
      values = values.now;
      gone = keys_of gone.now;
      goal = None;
    }) }
{
    Ok(Change {
        instances_in: Seq::new(alloc),
        instances_out: Seq::new(alloc),
        adds: adds.copy(alloc)?,
        deletes: deletes.copy(alloc)?,
        values: Seq::of(Vec::from_slice(alloc, values.as_slice())?),
        gone: terms(alloc, gone.as_slice())?,
        goal: None,
    })
}

/// A change in a box: what owns one has a single part to let go of.
fn boxed(alloc: Global, change: Change) -> Result<Box<Change>, AllocError>
    ensures { IfOk result (λ c. c.value ≡ change) }
{
    Ok(Box::new(alloc, change)?)
}

impl Difference {
    /// No difference.
    pub fn none(alloc: Global) -> Difference
        ensures { result ≡ no_difference }
    {
        Difference {
            came: Seq::new(alloc),
            went: Seq::new(alloc),
            given: Seq::new(alloc),
            lost: Seq::new(alloc),
        }
    }

    /// An equal difference.
    pub fn copy(&self, alloc: Global) -> Result<Difference, AllocError>
        ensures { IfOk result (λ x. x ≡ self.now) }
    {
        Ok(Difference {
            came: self.came.copy(alloc)?,
            went: self.went.copy(alloc)?,
            given: Seq::of(Vec::from_slice(alloc, self.given.as_slice())?),
            lost: Seq::of(Vec::from_slice(alloc, self.lost.as_slice())?),
        })
    }

    /// What differs between the start and what a change leads to from a state with this difference. Only what these two name is looked at.
    pub fn after(
        &self,
        start: &Problem,
        here: &Problem,
        change: &Change,
    ) -> Result<Difference, AllocError>
        requires { IsLed start.now self.now change.now here.now }
        ensures { IfOk result (λ x. x ≡ difference start.now here.now) }
    {
        let alloc = start.allocator();
        let touched = touched_by(alloc, change)?;
        Ok(Difference {
            came: new_facts(start, here, self.came.as_slice(), change.adds.as_slice())?,
            went: new_facts(here, start, self.went.as_slice(), change.deletes.as_slice())?,
            given: new_values(start, here, self.given.as_slice(), &touched)?,
            lost: new_values(here, start, self.lost.as_slice(), &touched)?,
        })
    }

    /// The change from the first to the second.
    pub fn forth(&self, alloc: Global) -> Result<Box<Change>, AllocError>
        ensures { IfOk result (λ c. c.value ≡ forth self.now) }
    {
        let change = change(alloc, &self.came, &self.went, &self.given, &self.lost)?;
        boxed(alloc, change)
    }

    /// The change from the second back to the first.
    pub fn back(&self, alloc: Global) -> Result<Box<Change>, AllocError>
        ensures { IfOk result (λ c. c.value ≡ back self.now) }
    {
        let change = change(alloc, &self.went, &self.came, &self.lost, &self.given)?;
        boxed(alloc, change)
    }
}
