//! What is wrong with the shape of a domain's text.
ghost use Rattle.std.specs.Prelude.{◌≡◌, Some, slice_get};
ghost use Rattle.ps_grammar.specs.Forms.{unsupported, form_of_keyword, form_where, form_anywhere, opens, opened_at};

use super::marks::Mark;
use super::symbols::{ActionPart, ConditionPart, EffectPart, ListPart, Symbol, TextPart};

/// What a text may hold that isn't supported.
#[derive(Clone, Copy, PartialEq, Eq, Debug)]
pub enum Form {
    /// `:action`, an action without duration.
    Action,
    /// `:derived`, a derived predicate.
    Derived,
    /// `:constraints`
    Constraints,
    /// A problem's text in place of a domain's.
    Problem,
    /// A duration of another form than `(= ?duration X)`.
    Duration,
    /// `?duration` in another place.
    DurationUse,
    /// `#t`, the time of a continuous effect.
    Continuous,
    /// `(either ..)` as a type.
    Either,
    /// A preference.
    Preference,
    /// `or`, `imply`, `exists`, `forall` or `when`, where no form has it as its head.
    Quantified,
}

/// Why a text isn't of a domain's shape. Places count marks from 0.
#[derive(Clone, Copy, PartialEq, Eq, Debug)]
pub enum ShapeFault {
    /// A form of the language that isn't supported stands here.
    Unsupported { at: usize, what: Form },
    /// The parenthesis here opens more than 64 levels, of which one effect alone in a `forall` or a `when` counts for two.
    Depth { at: usize },
    /// The mark here fits nothing, or more is wanted at the text's end.
    Unexpected { at: usize },
}

/// The unsupported form that a mark begins that doesn't fit where the symbol is wanted; `next` is the mark after it.
pub fn unsupported(wanted: Option<Symbol>, mark: Mark, next: Option<Mark>) -> Option<Form>
    ensures { result ≡ unsupported wanted mark next }
{
    form_of_keyword(mark)
        .or(form_where(wanted, mark, next))
        .or(form_anywhere(mark))
}

fn form_of_keyword(mark: Mark) -> Option<Form>
    ensures { result ≡ form_of_keyword mark }
{
    match mark {
        Mark::Action => Some(Form::Action),
        Mark::Derived => Some(Form::Derived),
        Mark::Constraints => Some(Form::Constraints),
        _ => None,
    }
}

fn form_where(wanted: Option<Symbol>, mark: Mark, next: Option<Mark>) -> Option<Form>
    ensures { result ≡ form_where wanted mark next }
{
    match (wanted?, mark) {
        (Symbol::InText(TextPart::TitleWord), Mark::Problem) => Some(Form::Problem),
        (Symbol::InAction(ActionPart::DurationHead), Mark::Open) => None,
        (Symbol::InAction(ActionPart::DurationHead), _) => Some(Form::Duration),
        (Symbol::InList(ListPart::TypeName | ListPart::FunctionType), Mark::Open) => if next
            == Some(Mark::Either)
        {
            Some(Form::Either)
        } else {
            None
        },
        (
            Symbol::InCondition(
                ConditionPart::FormHead | ConditionPart::TimedHead | ConditionPart::Head,
            ),
            Mark::Preference,
        ) => Some(Form::Preference),
        (
            Symbol::InCondition(
                ConditionPart::FormHead | ConditionPart::TimedHead | ConditionPart::Head,
            )
            | Symbol::InEffect(
                EffectPart::FormHead
                | EffectPart::TimedHead
                | EffectPart::Head(_)
                | EffectPart::BodyHead(_),
            ),
            Mark::Or | Mark::Imply | Mark::Exists | Mark::Forall | Mark::When,
        ) => Some(Form::Quantified),
        _ => None,
    }
}

fn form_anywhere(mark: Mark) -> Option<Form>
    ensures { result ≡ form_anywhere mark }
{
    match mark {
        Mark::Duration => Some(Form::DurationUse),
        Mark::Continuous => Some(Form::Continuous),
        _ => None,
    }
}

/// Whether the mark opens a level of parentheses where the symbol is wanted: a parenthesis does, and so does the word that begins one
/// effect alone in a `forall` or a `when`, as if it stood in an `and`.
pub fn opens(wanted: Option<Symbol>, mark: Mark) -> bool
    ensures { result ≡ opens wanted mark }
{
    match (wanted, mark) {
        (_, Mark::Open) => true,
        (_, Mark::Close) => false,
        (Some(Symbol::InEffect(EffectPart::BodyHead(_))), _) => mark != Mark::And,
        _ => false,
    }
}

/// The place of the parenthesis that opens a level, by that of the mark that does.
pub fn opened_at(wanted: Option<Symbol>, at: usize) -> usize
    ensures { result ≡ opened_at wanted at }
{
    match wanted {
        Some(Symbol::InEffect(EffectPart::BodyHead(_))) => at.saturating_sub(1),
        _ => at,
    }
}
