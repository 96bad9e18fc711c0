//! What a domain's text wants next.
ghost use Rattle.std.specs.Prelude.{◌≡◌, ◌≤◌, true};
ghost use Rattle.ps_grammar.specs.Symbols.{none_seen, has_forall, has_when, weight, level, symbols};

use super::marks::Mark;

/// What is wanted: the grammar's symbols, by the part of the grammar.
#[derive(Clone, Copy)]
pub enum Symbol {
    /// This mark.
    The(Mark),
    /// Any name.
    AnyName,
    /// A part of the text's frame.
    InText(TextPart),
    /// A part of a list.
    InList(ListPart),
    /// A part of an action.
    InAction(ActionPart),
    /// A part of a condition.
    InCondition(ConditionPart),
    /// A part of an effect.
    InEffect(EffectPart),
    /// A part of a value.
    InValue(ValuePart),
    /// A part of a goal: a condition whose variables are bound in it.
    InGoal(GoalPart),
}

/// The text's frame.
#[derive(Clone, Copy)]
pub enum TextPart {
    /// The whole text.
    Whole,
    /// `(domain NAME)`
    Title,
    /// `domain` within the title.
    TitleWord,
    /// The sections that are left and the last parenthesis, after these.
    Sections(Seen),
    /// A section without its first parenthesis, and what follows it.
    SectionHead(Seen),
}

/// Which sections stood before, of those that stand at most once.
#[derive(Clone, Copy)]
pub struct Seen {
    pub requirements: bool,
    pub types: bool,
    pub constants: bool,
    pub predicates: bool,
    pub functions: bool,
}

impl Seen {
    /// Before any section.
    pub fn none() -> Self
        ensures { result ≡ none_seen }
    {
        Seen {
            requirements: false,
            types: false,
            constants: false,
            predicates: false,
            functions: false,
        }
    }

    /// With `:requirements` too.
    pub fn with_requirements(self) -> Self
        ensures { result ≡ record self { requirements = true } }
    {
        Seen {
            requirements: true,
            ..self
        }
    }

    /// With `:types` too.
    pub fn with_types(self) -> Self
        ensures { result ≡ record self { types = true } }
    {
        Seen {
            types: true,
            ..self
        }
    }

    /// With `:constants` too.
    pub fn with_constants(self) -> Self
        ensures { result ≡ record self { constants = true } }
    {
        Seen {
            constants: true,
            ..self
        }
    }

    /// With `:predicates` too.
    pub fn with_predicates(self) -> Self
        ensures { result ≡ record self { predicates = true } }
    {
        Seen {
            predicates: true,
            ..self
        }
    }

    /// With `:functions` too.
    pub fn with_functions(self) -> Self
        ensures { result ≡ record self { functions = true } }
    {
        Seen {
            functions: true,
            ..self
        }
    }
}

/// Lists, each with the parenthesis that ends it.
#[derive(Clone, Copy)]
pub enum ListPart {
    /// Keywords.
    Keywords,
    /// Names, of which none waits for a type.
    Names,
    /// Names, of which some may get a type.
    NameRun,
    /// Variables, of which none waits for a type.
    Variables,
    /// Variables, of which some may get a type.
    VariableRun,
    /// A type's name; it ends no list.
    TypeName,
    /// Declarations of predicates.
    Predicates,
    /// A predicate's name; it ends no list.
    PredicateHead,
    /// Declarations of functions.
    Functions,
    /// Declarations of functions, after one that may get a type.
    FunctionRun,
    /// The type of a function; it ends no list.
    FunctionType,
}

/// An action's parts, each with the rest of the action unless it says otherwise.
#[derive(Clone, Copy)]
pub enum ActionPart {
    /// What follows the action's name.
    AfterName,
    /// The list of parameters, or of the variables of a quantifier, alone.
    Parameters,
    /// What follows the parameters.
    AfterParameters,
    /// The duration alone.
    Duration,
    /// The duration alone, without its first parenthesis.
    DurationHead,
    /// What follows the duration.
    AfterDuration,
    /// What follows the condition.
    AfterCondition,
}

/// Conditions.
#[derive(Clone, Copy)]
pub enum ConditionPart {
    /// The form of a `:condition`.
    Form,
    /// That form without its first parenthesis.
    FormHead,
    /// Conditions with times, and the parenthesis that ends them.
    TimedList,
    /// A condition with a time, without its first parenthesis.
    TimedHead,
    /// A condition.
    Condition,
    /// Conditions, and the parenthesis that ends them.
    Conditions,
    /// A condition without its first parenthesis.
    Head,
}

/// Which effects may stand at a place, beside those on one fact or value.
#[derive(Clone, Copy)]
pub enum Reach {
    /// `forall` and `when`.
    Spread,
    /// `when` alone: in a `forall`.
    Guarded,
    /// None more: in a `when`.
    Plain,
}

impl Reach {
    /// Whether a `forall` may stand there.
    pub fn has_forall(self) -> bool
        ensures { result ≡ has_forall self }
    {
        match self {
            Reach::Spread => true,
            Reach::Guarded | Reach::Plain => false,
        }
    }

    /// Whether a `when` may stand there.
    pub fn has_when(self) -> bool
        ensures { result ≡ has_when self }
    {
        match self {
            Reach::Spread | Reach::Guarded => true,
            Reach::Plain => false,
        }
    }
}

/// Effects, and what they share with conditions.
#[derive(Clone, Copy)]
pub enum EffectPart {
    /// The form of an `:effect`.
    Form,
    /// That form without its first parenthesis.
    FormHead,
    /// Effects with times, and the parenthesis that ends them.
    TimedList,
    /// An effect with a time, without its first parenthesis.
    TimedHead,
    /// An effect.
    Effect(Reach),
    /// Effects, and the parenthesis that ends them.
    Effects(Reach),
    /// An effect without its first parenthesis.
    Head(Reach),
    /// What a `forall` or a `when` makes: effects in an `and`, or one alone, which counts a level more.
    Body(Reach),
    /// The same without its first parenthesis.
    BodyHead(Reach),
    /// The terms of a fact that stands alone so, and the parenthesis that ends them.
    LoneTerms,
    /// `start` or `end`.
    StartOrEnd,
    /// The parenthesis that ends what counts a level more: a form with a time, or a body, that stands alone.
    FormEnd,
}

/// Values and terms.
#[derive(Clone, Copy)]
pub enum ValuePart {
    /// A name with terms, in parentheses.
    Atom,
    /// Terms, and the parenthesis that ends them.
    Terms,
    /// A value.
    Value,
    /// A value in parentheses, without the first.
    Head,
    /// A value and a parenthesis, or that parenthesis.
    ValueOrEnd,
}

/// Goals, and what they share with single facts and numbers: terms are names and variables, and numbers stand alone or are in parentheses.
#[derive(Clone, Copy)]
pub enum GoalPart {
    /// A condition.
    Condition,
    /// A condition without its first parenthesis.
    Head,
    /// Conditions, and the parenthesis that ends them.
    Conditions,
    /// What follows `=`: two terms or two values, and the parenthesis that ends them.
    FirstOperand,
    /// A name with terms, in parentheses.
    Atom,
    /// A name or a variable.
    Term,
    /// At most so many terms, and the parenthesis that ends them.
    Names(u8),
    /// A value.
    Value,
    /// A value in parentheses, without the first.
    ValueHead,
    /// A value and a parenthesis, or that parenthesis.
    ValueOrEnd,
}

/// What a mark leads to.
#[derive(Clone, Copy)]
pub enum Then {
    /// Nothing more.
    Nothing,
    /// This symbol.
    One(Symbol),
    /// These symbols in order.
    Two(Symbol, Symbol),
    /// These symbols in order.
    Three(Symbol, Symbol, Symbol),
}

impl Symbol {
    /// By how much what it stands for lowers the level of parentheses.
    pub fn weight(self) -> usize
        ensures value { result ≡ weight self }
        ensures few { result ≤ 2 }
    {
        match self {
            Symbol::The(Mark::Close) => 1,
            Symbol::The(_)
            | Symbol::AnyName
            | Symbol::InText(TextPart::Whole | TextPart::Title | TextPart::TitleWord)
            | Symbol::InList(ListPart::TypeName | ListPart::PredicateHead | ListPart::FunctionType)
            | Symbol::InAction(ActionPart::Parameters | ActionPart::Duration)
            | Symbol::InCondition(ConditionPart::Form | ConditionPart::Condition)
            | Symbol::InEffect(
                EffectPart::Form
                | EffectPart::Effect(_)
                | EffectPart::Body(_)
                | EffectPart::StartOrEnd,
            )
            | Symbol::InValue(ValuePart::Atom | ValuePart::Value)
            | Symbol::InGoal(
                GoalPart::Condition | GoalPart::Atom | GoalPart::Term | GoalPart::Value,
            ) => 0,
            Symbol::InText(TextPart::SectionHead(_))
            | Symbol::InEffect(EffectPart::LoneTerms | EffectPart::FormEnd) => 2,
            _ => 1,
        }
    }
}

impl Then {
    /// By how much its symbols lower the level of parentheses.
    pub fn level(self) -> usize
        ensures { result ≡ level (symbols self) }
    {
        match self {
            Then::Nothing => 0,
            Then::One(a) => a.weight(),
            Then::Two(a, b) => a.weight() + b.weight(),
            Then::Three(a, b, c) => a.weight() + b.weight() + c.weight(),
        }
    }
}
