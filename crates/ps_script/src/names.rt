//! What words mean in a line.
ghost use Rattle.std.specs.Prelude.{◌≡◌, ◌≤◌, ◌++◌, drop, length, map, position, take, IfOk};
ghost use Rattle.ps_world.specs.Names.{same_name};
ghost use Rattle.ps_conditions.specs.declared.scopes.TheConstants.{MOST_IN_FORCE};
ghost use Rattle.ps_lists.specs.Nested.{nesteds};
ghost use Rattle.ps_lists.specs.NestedViews.{nested};
ghost use Rattle.ps_script.specs.Goals.{args_of, bound, kind_ahead, lifted, line_scopes, term, typed};

use ps_conditions::Scope;
use ps_grammar::Mark;
use ps_lists::{Lexeme, Tree, head, word_of};
use ps_world::{Args, Expr, Failure, Lifted, MOST_ARGUMENTS, Name, Param, Params, Term, Terms};
use std::alloc::{AllocError, Global};
use std::convert::Infallible;

/// The most variables that quantifiers bind in force at one place of a goal.
const MOST_BOUND: usize = 2;

/// The arguments of a fact, of which there are 6 at most.
pub fn args_of(trees: &[Tree]) -> Args
    ensures { result ≡ args_of (nesteds (map nested trees.now)) }
{
    let count = trees.len().min(MOST_ARGUMENTS);
    let mut names = [Name::OBJECT; MOST_ARGUMENTS];
    for i in 0..count {
        names[i] = word_of(&trees[i]).name;
    }
    match Args::of(&names[..count]) {
        Some(args) => args,
        None => unreachable!(),
    }
}

/// The place of a variable in force.
fn place_of(params: &[Param], name: Name) -> Option<usize>
    ensures { result ≡ position (λ p. same_name name p.name) params.now }
{
    params.iter().position(|param| name == param.name)
}

/// The term that a word is: a variable in force, else a constant.
fn term(params: &[Param], word: Lexeme) -> Term
    requires { length params.now ≤ MOST_IN_FORCE }
    ensures { result ≡ term params.now word }
{
    if word.mark != Mark::Variable {
        return Term::Const(word.name);
    }
    match place_of(params, word.name) {
        Some(place) => Term::Var(place as u8),
        None => Term::Const(word.name),
    }
}

/// A head and its arguments, of which there are 6 at most.
fn lifted(params: &[Param], head: Lexeme, trees: &[Tree]) -> Lifted
    requires { length params.now ≤ MOST_IN_FORCE }
    ensures { result ≡ lifted params.now head (nesteds (map nested trees.now)) }
{
    let count = trees.len().min(MOST_ARGUMENTS);
    let mut terms = [Term::Const(Name::OBJECT); MOST_ARGUMENTS];
    for i in 0..count {
        terms[i] = term(params, word_of(&trees[i]));
    }
    match Terms::of(&terms[..count]) {
        Some(terms) => Lifted {
            head: head.name,
            terms,
        },
        None => unreachable!(),
    }
}

/// The type of the run of names that goes on at this place: the name after the next `-`, or `object`.
fn kind_ahead(trees: &[Tree], from: usize) -> Name
    ensures { result ≡ kind_ahead (nesteds (map nested (drop from trees.now))) }
{
    let mut i = from;
    while i < trees.len() {
        if word_of(&trees[i]).mark == Mark::Minus {
            return head(&trees[i + 1..]).name;
        }
        i += 1;
    }
    Name::OBJECT
}

/// The first variables of a list, each with its type, of which there are so many at most.
fn typed(alloc: Global, most: usize, trees: &[Tree]) -> Result<Vec<Param>, AllocError>
    ensures { IfOk result (λ v. v.items ≡ take most (typed (nesteds (map nested trees.now)))) }
{
    let mut all = Vec::new(alloc);
    let mut kind = kind_ahead(trees, 0);
    let mut i = 0;
    while i < trees.len() && all.len() < most {
        let word = word_of(&trees[i]);
        i += 1;
        if word.mark == Mark::Minus {
            i += 1;
            kind = kind_ahead(trees, i);
        } else {
            all.push(Param {
                name: word.name,
                kind,
            })?;
        }
    }
    Ok(all)
}

/// A line: each word that may be a term is a variable in force or a constant, and none is refused.
pub struct LineNames;

impl Scope for LineNames {
    ghost use Rattle.std.specs.declared.convert.Infallible.{Infallible as Never};
    ghost use Rattle.ps_conditions.specs.Words.{unrefused_scopes};

    type Refusal = Infallible;

    ghost scopes = { λ _. unrefused_scopes Never line_scopes };

    fn term(&self, params: &[Param], word: Lexeme) -> Result<Term, Infallible> {
        Ok(term(params, word))
    }

    fn second(&self, params: &[Param], _first: Lexeme, tree: &Tree) -> Result<Term, Infallible> {
        Ok(term(params, word_of(tree)))
    }

    fn worth(&self, _params: &[Param], word: Lexeme) -> Result<Expr, Infallible> {
        Ok(Expr::Num(word.number))
    }

    fn fact(&self, params: &[Param], head: Lexeme, args: &[Tree]) -> Result<Lifted, Infallible> {
        Ok(lifted(params, head, args))
    }

    fn function(
        &self,
        params: &[Param],
        head: Lexeme,
        args: &[Tree],
    ) -> Result<Lifted, Infallible> {
        Ok(lifted(params, head, args))
    }

    fn bound(
        &self,
        alloc: Global,
        params: &[Param],
        trees: &[Tree],
    ) -> Result<Params, Failure<Infallible>> {
        let most = MOST_BOUND.saturating_sub(params.len());
        let own = typed(alloc, most, trees)?;
        Ok(Params::of(own))
    }
}
