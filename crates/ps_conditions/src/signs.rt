//! The words that a form begins with.
ghost use Rattle.std.specs.Prelude.{◌≡◌};
ghost use Rattle.ps_grammar.specs.Marks.{is};
ghost use Rattle.ps_grammar.specs.declared.marks.Mark.TheVariants.{And, Minus, Not, Number};
ghost use Rattle.ps_conditions.specs.Signs.{head_of, operator_of, rel_of};

use ps_grammar::Mark;
use ps_world::{Op, Rel};

/// The forms of conditions, by the words that they begin with.
#[derive(Clone, Copy, PartialEq, Eq, Debug)]
pub enum Head {
    /// `and`
    All,
    /// `or`
    Any,
    /// `not`
    No,
    /// `imply`
    Implied,
    /// `exists`
    ForSome,
    /// `forall`
    ForAll,
    /// A predicate or the sign of a comparison.
    Plain,
}

/// The form of a condition that begins with this word.
pub(crate) fn head_of(mark: Mark) -> Head
    ensures { result ≡ head_of mark }
{
    match mark {
        Mark::And => Head::All,
        Mark::Or => Head::Any,
        Mark::Not => Head::No,
        Mark::Imply => Head::Implied,
        Mark::Exists => Head::ForSome,
        Mark::Forall => Head::ForAll,
        _ => Head::Plain,
    }
}

/// The comparison with this sign.
pub(crate) fn rel_of(mark: Mark) -> Option<Rel>
    ensures { result ≡ rel_of mark }
{
    match mark {
        Mark::Less => Some(Rel::Lt),
        Mark::LessEqual => Some(Rel::Le),
        Mark::Equal => Some(Rel::Eq),
        Mark::GreaterEqual => Some(Rel::Ge),
        Mark::Greater => Some(Rel::Gt),
        _ => None,
    }
}

/// The operation with this sign.
pub(crate) fn operator_of(mark: Mark) -> Option<Op>
    ensures { result ≡ operator_of mark }
{
    match mark {
        Mark::Plus => Some(Op::Add),
        Mark::Minus => Some(Op::Sub),
        Mark::Times => Some(Op::Mul),
        Mark::Divide => Some(Op::Div),
        _ => None,
    }
}

/// Whether a word is a number.
pub fn is_number(mark: Mark) -> bool
    ensures { result ≡ is Number mark }
{
    mark == Mark::Number
}

pub(crate) fn is_minus(mark: Mark) -> bool
    ensures { result ≡ is Minus mark }
{
    mark == Mark::Minus
}

/// Whether a word is `and`.
pub fn is_and(mark: Mark) -> bool
    ensures { result ≡ is And mark }
{
    mark == Mark::And
}

/// Whether a word is `not`.
pub fn is_not(mark: Mark) -> bool
    ensures { result ≡ is Not mark }
{
    mark == Mark::Not
}
