//! Reading a domain's text.
ghost use Rattle.std.specs.Prelude.{◌≡◌, Err, IfOk, IfSome, OnOk};
ghost use Rattle.ps_world.specs.Failures.{refusal_of};
ghost use Rattle.ps_world.specs.declared.failures.Failure.TheVariants.{OutOfMemory};
ghost use Rattle.ps_text.specs.Tokens.{AreTokens};
ghost use Rattle.ps_grammar.specs.Shape.{IsDomainShape, IsShallow};
ghost use Rattle.ps_text.specs.Names.{Keeps};
ghost use Rattle.ps_lists.specs.Lexemes.{marks};
ghost use Rattle.ps_pddl.specs.Reading.{ReadsDomain, RefusesClass, RefusesShape, misshapen, place, unlexed};

use super::meaning::domain_of;
use super::refusals::{Cap, DomainRefusal};
use ps_grammar::{Mark, ShapeFault, judge};
use ps_lists::{Lexeme, lexemes_of, trees_of};
use ps_text::{LexRefusal, Names, Token, tokens};
use ps_world::{Domain, Failure};
use std::alloc::{AllocError, Global};

/// The domain that a text declares. Its names are put into the table. After a refusal the table may have new names; old ones keep
/// their numbers and texts. Where memory runs out the table is as it was.
///
/// The refusal is the first fault, where each phase runs only if the one before found none: `Lex`, at the first word without a class;
/// the first of `Unsupported`, `Limit` of depth and `Unexpected` in the order of the text; then, in the order types, constants,
/// predicates, functions, actions, each in the order of the text, the first of `Limit`, `Twice`, `Unknown`, `Arity` and `Kind`, with
/// `Cycle` after all types. Memory may run out at any time.
pub fn read_domain(
    alloc: Global,
    names: &mut Names,
    bytes: &[u8],
) -> Result<Domain, Failure<DomainRefusal>>
    ensures reads { ReadsDomain names.old bytes.now result names.new }
    ensures kept { Keeps names.old names.new }
    ensures starved { result ≡ Err OutOfMemory → names.new ≡ names.old }
{
    let known = names.len();
    let read = read_known(alloc, names, bytes);
    if let Err(Failure::OutOfMemory) = read {
        names.cut_back(known);
    }
    read
}

/// Reads a domain, as `read_domain` does, but where memory runs out the table may have new names too.
fn read_known(
    alloc: Global,
    names: &mut Names,
    bytes: &[u8],
) -> Result<Domain, Failure<DomainRefusal>>
    ensures reads { ReadsDomain names.old bytes.now result names.new }
    ensures kept { Keeps names.old names.new }
{
    let tokens = classed(alloc, bytes)?;
    let words = lexemes_of(alloc, names, bytes, tokens)?;
    check_shape(alloc, bytes, &words)?;
    let trees = trees_of(alloc, words)?;
    domain_of(alloc, trees.as_slice())
}

/// The words of a text, each with its class. The refusal is `Lex`, at the first word without one.
fn classed(alloc: Global, bytes: &[u8]) -> Result<Vec<Token>, Failure<DomainRefusal>>
    ensures ok { IfOk result (λ v. AreTokens bytes.now v.items) }
    ensures class { IfSome (refusal_of result) (λ r. RefusesClass bytes.now r) }
{
    match tokens(alloc, bytes) {
        Ok(tokens) => Ok(tokens),
        Err(Failure::Refused(fault)) => Err(Failure::Refused(unlexed(fault))),
        Err(Failure::OutOfMemory) => Err(Failure::OutOfMemory),
    }
}

/// A word without a class, with its byte.
fn unlexed(fault: LexRefusal) -> DomainRefusal
    ensures { result ≡ unlexed fault }
{
    match fault {
        LexRefusal::Bad { at } | LexRefusal::Number { at } => DomainRefusal::Lex { at },
    }
}

/// Whether words are of a domain's shape. The refusal is the first fault.
fn check_shape(alloc: Global, bytes: &[u8], words: &[Lexeme]) -> Result<(), Failure<DomainRefusal>>
    ensures ok { OnOk result (IsDomainShape (marks words.now) × IsShallow (marks words.now)) }
    ensures fault { IfSome (refusal_of result) (λ r. RefusesShape bytes.now words.now r) }
{
    let marks = marks_of(alloc, words)?;
    match judge(alloc, &marks) {
        Ok(()) => Ok(()),
        Err(Failure::Refused(fault)) => Err(Failure::Refused(misshapen(bytes, words, fault))),
        Err(Failure::OutOfMemory) => Err(Failure::OutOfMemory),
    }
}

fn marks_of(alloc: Global, words: &[Lexeme]) -> Result<Vec<Mark>, AllocError>
    ensures { IfOk result (λ v. v.items ≡ marks words.now) }
{
    words.iter().map(|word| word.mark).collect(alloc)
}

/// A fault of the shape, with its byte.
fn misshapen(bytes: &[u8], words: &[Lexeme], fault: ShapeFault) -> DomainRefusal
    ensures { result ≡ misshapen bytes.now words.now fault }
{
    match fault {
        ShapeFault::Unsupported { at, what } => DomainRefusal::Unsupported {
            at: place(bytes, words, at),
            what,
        },
        ShapeFault::Depth { at } => DomainRefusal::Limit {
            at: place(bytes, words, at),
            which: Cap::Depth,
        },
        ShapeFault::Unexpected { at } => DomainRefusal::Unexpected {
            at: place(bytes, words, at),
        },
    }
}

/// The byte at which a word begins, or the text's length past the last.
fn place(bytes: &[u8], words: &[Lexeme], i: usize) -> usize
    ensures { result ≡ place bytes.now words.now i }
{
    match words.get(i) {
        Some(word) => word.at,
        None => bytes.len(),
    }
}
