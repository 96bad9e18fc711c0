//! What a list of typed names declares.
ghost use Rattle.std.specs.Prelude.{◌≡◌, ◌≤◌, ◌+◌, ◌++◌, drop, length, true, false, IfErr, IfOk, OnErr, OnOk};
ghost use Rattle.std.specs.List.{list_any};
ghost use Rattle.ps_world.specs.Failures.{Gives};
ghost use Rattle.ps_world.specs.Names.{same_name};
ghost use Rattle.ps_world.specs.Knowledge.{is_type};
ghost use Rattle.ps_conditions.specs.declared.scopes.TheConstants.{MOST_IN_FORCE};
ghost use Rattle.ps_pddl.specs.Lists.{PassesType, binding, cap_of, counted, counts, fault_of_new, kind_ahead, listed, most_of, with_name};
ghost use Rattle.ps_pddl.specs.Forms.{forms};
ghost use Rattle.ps_pddl.specs.declared.refusals.DomainRefusal.TheVariants.{Unknown};

use crate::refusals::{Cap, DomainRefusal};
use ps_domain::Declared;
use ps_grammar::Mark;
use ps_lists::{Lexeme, Tree, head, word_of};
use ps_world::{Failure, MOST_ARGUMENTS, MOST_INSTANCES, Name, Param, Params};
use std::alloc::Global;

/// How many types a domain has at most.
const MOST_TYPES: usize = 256;

/// What a list of typed names declares.
#[derive(Clone, Copy, PartialEq, Eq, Debug)]
pub enum Listing {
    /// The types, each with its parent.
    Types,
    /// The constants of a domain.
    Constants,
    /// The parameters of a predicate, a function or an action.
    Params,
    /// The variables that a list binds after those in force, with so many at most in all.
    Bound(usize),
}

impl Listing {
    /// Which limit a list has.
    fn cap(self) -> Cap
        ensures { result ≡ cap_of self }
    {
        match self {
            Listing::Types => Cap::Types,
            Listing::Constants => Cap::Instances,
            Listing::Params => Cap::Params,
            Listing::Bound(_) => Cap::Bound,
        }
    }

    /// How many names it has at most.
    fn most(self) -> usize
        ensures { result ≡ most_of self }
    {
        match self {
            Listing::Types => MOST_TYPES,
            Listing::Constants => MOST_INSTANCES,
            Listing::Params => MOST_ARGUMENTS,
            Listing::Bound(most) => most,
        }
    }

    /// Whether a name counts. `object` among the types has no effect where its parent is `object` too.
    pub fn counts(self, param: &Param) -> bool
        ensures { result ≡ counts self param.now }
    {
        match self {
            Listing::Types => !(param.name == Name::OBJECT && param.kind == Name::OBJECT),
            Listing::Constants | Listing::Params | Listing::Bound(_) => true,
        }
    }

    /// How many count, if this one does.
    fn counted(self, param: &Param, before: &[Param]) -> usize
        ensures { result ≡ counted self param.now before.now }
    {
        if self.counts(param) {
            before.iter().filter(|p| self.counts(p)).count()
        } else {
            0
        }
    }
}

/// What is at fault with one name more in a list of so many, if anything is: it is one too many, or it is there already.
pub fn fault_of_new(
    which: Cap,
    most: usize,
    count: usize,
    taken: bool,
    word: Lexeme,
) -> Option<DomainRefusal>
    ensures { result ≡ fault_of_new which most count taken word }
{
    if most <= count {
        Some(DomainRefusal::Limit { at: word.at, which })
    } else if taken {
        Some(DomainRefusal::Twice {
            at: word.at,
            name: word.name,
        })
    } else {
        None
    }
}

/// The type of the run of names that goes on at this place: the name after the next `-`, or `object`.
fn kind_ahead(trees: &[Tree], from: usize) -> Name
    ensures { result ≡ kind_ahead (forms (drop from trees.now)) }
{
    let mut i = from;
    while i < trees.len() {
        if word_of(&trees[i]).mark == Mark::Minus {
            return head(&trees[i + 1..]).name;
        }
        i += 1;
    }
    Name::OBJECT
}

/// Whether one of these has the name.
fn is_taken(before: &[Param], name: Name) -> bool
    ensures { result ≡ list_any (λ p. same_name name p.name) before.now }
{
    before.iter().any(|p| name == p.name)
}

/// Puts a name with its type at the end of a list.
fn add_name(
    listing: Listing,
    word: Lexeme,
    kind: Name,
    before: &mut Vec<Param>,
) -> Result<(), Failure<DomainRefusal>>
    ensures { Gives (λ _. before.new.items) result (with_name listing word kind before.old.items) }
{
    let param = Param {
        name: word.name,
        kind,
    };
    let count = listing.counted(&param, before);
    let taken = is_taken(before, word.name);
    match fault_of_new(listing.cap(), listing.most(), count, taken, word) {
        Some(fault) => Err(Failure::Refused(fault)),
        None => {
            before.push(param)?;
            Ok(())
        }
    }
}

/// Passes over the name of a type at this place, if anything stands there. The refusal is that it is no type.
fn pass_type(d: &Declared, trees: &[Tree], at: usize) -> Result<(), DomainRefusal>
    ensures { PassesType d.now trees.now at result }
{
    match trees.get(at) {
        None => Ok(()),
        Some(tree) => pass_word(d, word_of(tree)),
    }
}

/// Passes over the name of a type. The refusal is that it is no type.
fn pass_word(d: &Declared, word: Lexeme) -> Result<(), DomainRefusal>
    ensures ok { OnOk result (is_type d.now word.name ≡ true) }
    ensures err { OnErr result (is_type d.now word.name ≡ false) }
    ensures fault { IfErr result (λ r. r ≡ Unknown word.at word.name) }
{
    if d.is_type(word.name) {
        Ok(())
    } else {
        Err(DomainRefusal::Unknown {
            at: word.at,
            name: word.name,
        })
    }
}

/// The names that a list declares after those before, each with its type: names, of which a run before `- NAME` has that type and the rest
/// `object`.
/// The refusal is the first fault. The text is gone through twice, and the list before each name is within the limit.
pub fn listed(
    alloc: Global,
    d: &Declared,
    listing: Listing,
    before: &[Param],
    trees: &[Tree],
) -> Result<Vec<Param>, Failure<DomainRefusal>>
    ensures { Gives (λ v. v.items) result (listed d.now listing (forms trees.now) before.now) }
{
    let mut all = Vec::new(alloc);
    all.extend_from_slice(before)?;
    let mut kind = kind_ahead(trees, 0);
    let mut i = 0;
    while i < trees.len() {
        let word = word_of(&trees[i]);
        i += 1;
        if word.mark == Mark::Minus {
            pass_type(d, trees, i).map_err(Failure::Refused)?;
            i += 1;
            kind = kind_ahead(trees, i);
        } else {
            add_name(listing, word, kind, &mut all)?;
        }
    }
    Ok(all)
}

/// The variables that a list binds after these, of which there are so many at most then.
pub fn binding(
    alloc: Global,
    d: &Declared,
    most: usize,
    params: &[Param],
    trees: &[Tree],
) -> Result<Params, Failure<DomainRefusal>>
    requires new { most ≤ length params.now + 2 }
    requires in_force { most ≤ MOST_IN_FORCE }
    requires before { length params.now ≤ MOST_IN_FORCE }
    ensures value { Gives (λ qs. qs) result (binding d.now most params.now (forms trees.now)) }
    ensures few { IfOk result (λ qs. length (params.now ++ qs) ≤ MOST_IN_FORCE) }
{
    let all = listed(alloc, d, Listing::Bound(most), params, trees)?;
    let mut own = Vec::new(alloc);
    let listed = all.as_slice();
    own.extend_from_slice(&listed[params.len()..])?;
    Ok(Params::of(own))
}
