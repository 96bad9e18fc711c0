//! What names and variables stand for in an action, and what a head with arguments means.
ghost use Rattle.std.specs.Prelude.{◌≡◌, List, Some, [], ◌∷◌, ◌++◌, length, position, take};
ghost use Rattle.ps_world.specs.Names.{same_name};
ghost use Rattle.ps_world.specs.declared.schemas.Term.{Term as TermView};
ghost use Rattle.ps_pddl.specs.Terms.{applied, argument, fact, lifted, resolved, term_of, value_of, variable_of};
ghost use Rattle.ps_pddl.specs.Forms.{forms};
ghost use Rattle.ps_pddl.specs.declared.refusals.DomainRefusal.TheVariants.{Unknown};

use super::scope::InForce;
use crate::refusals::DomainRefusal;
use ps_grammar::Mark;
use ps_lists::{Lexeme, Tree, count, word_of};
use ps_world::{Decl, Lifted, MOST_ARGUMENTS, Name, Param, Term, Terms};

/// A term with its type.
#[derive(Clone, Copy)]
pub struct Typed {
    pub term: Term,
    pub kind: Name,
}

/// The place of a parameter.
fn place_of(params: &[Param], name: Name) -> Option<usize>
    ensures { result ≡ position (λ p. same_name name p.name) params.now }
{
    params.iter().position(|param| name == param.name)
}

/// A parameter as a term with its type: its number is its place.
fn variable_of(scope: &InForce, name: Name) -> Option<Typed>
    ensures { result ≡ variable_of scope.now.params.now name }
{
    match place_of(scope.params, name) {
        Some(place) => Some(Typed {
            term: Term::Var(place as u8),
            kind: scope.params[place].kind,
        }),
        None => None,
    }
}

/// A declared parameter or constant as a term with its type.
fn term_of(scope: &InForce, mark: Mark, name: Name) -> Option<Typed>
    ensures { result ≡ term_of scope.now.domain.now scope.now.params.now mark name }
{
    match mark {
        Mark::Variable => variable_of(scope, name),
        _ => {
            let constant = scope.domain.constant(name)?;
            Some(Typed {
                term: Term::Const(name),
                kind: constant.kind,
            })
        }
    }
}

/// The fault of a name or a variable that isn't declared.
fn unknown(word: Lexeme) -> DomainRefusal
    ensures { result ≡ Unknown word.at word.name }
{
    DomainRefusal::Unknown {
        at: word.at,
        name: word.name,
    }
}

/// The term that a word is, with its type. It may be `Unknown`.
pub fn resolved(scope: &InForce, word: Lexeme) -> Result<Typed, DomainRefusal>
    ensures { result ≡ resolved scope.now.domain.now scope.now.params.now word }
{
    match term_of(scope, word.mark, word.name) {
        Some(term) => Ok(term),
        None => Err(unknown(word)),
    }
}

/// The term that a word is where this type is wanted: `Unknown` comes before `Kind`.
fn argument(scope: &InForce, want: Name, word: Lexeme) -> Result<Term, DomainRefusal>
    ensures { result ≡ argument scope.now.domain.now scope.now.params.now want word }
{
    let Some(Typed { term, kind }) = term_of(scope, word.mark, word.name) else {
        return Err(unknown(word));
    };
    if scope.domain.is_below(kind, want) {
        Ok(term)
    } else {
        Err(DomainRefusal::Kind { at: word.at })
    }
}

/// Keeps a term, if it is among the first 6.
fn keep(terms: &mut Terms, term: Term)
    ensures { terms.new ≡ take MOST_ARGUMENTS (terms.old ++ term ∷ []) }
{
    if terms.len() < MOST_ARGUMENTS {
        terms.push(term);
    }
}

/// A head with its arguments, where these are the first 6 of so many.
fn lifted(head: Lexeme, terms: Terms, count: usize) -> Result<Lifted, DomainRefusal>
    ensures { (all : List TermView) → length all ≡ count → terms ≡ take MOST_ARGUMENTS all
        → result ≡ lifted head all }
{
    if count > MOST_ARGUMENTS {
        return Err(DomainRefusal::Arity { at: head.at });
    }
    Ok(Lifted {
        head: head.name,
        terms,
    })
}

/// A head that is declared so, with arguments that suit it: `Arity` comes before what is at fault with an argument, and again after
/// it where there are more than 6. It takes no memory.
fn applied(
    scope: &InForce,
    decl: &Decl,
    head: Lexeme,
    trees: &[Tree],
) -> Result<Lifted, DomainRefusal>
    ensures { result ≡ applied scope.now.domain.now scope.now.params.now (Some decl.now) head (forms trees.now) }
{
    let wants = decl.params.as_slice();
    if wants.len() != count(trees) {
        return Err(DomainRefusal::Arity { at: head.at });
    }
    let mut terms = Terms::none();
    for (i, want) in wants.iter().enumerate() {
        let term = argument(scope, want.kind, word_of(&trees[i]))?;
        keep(&mut terms, term);
    }
    lifted(head, terms, wants.len())
}

/// A fact: a declared predicate with arguments that suit it. `Unknown` at the head comes before `Arity`.
pub fn fact(scope: &InForce, head: Lexeme, trees: &[Tree]) -> Result<Lifted, DomainRefusal>
    ensures { result ≡ fact scope.now.domain.now scope.now.params.now head (forms trees.now) }
{
    match scope.domain.predicate(head.name) {
        Some(decl) => applied(scope, decl, head, trees),
        None => Err(unknown(head)),
    }
}

/// The value of a declared function at arguments that suit it. `Unknown` at the head comes before `Arity`.
pub fn value_of(scope: &InForce, head: Lexeme, trees: &[Tree]) -> Result<Lifted, DomainRefusal>
    ensures { result ≡ value_of scope.now.domain.now scope.now.params.now head (forms trees.now) }
{
    match scope.domain.function(head.name) {
        Some(decl) => applied(scope, decl, head, trees),
        None => Err(unknown(head)),
    }
}
