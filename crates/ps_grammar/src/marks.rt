//! What a word of a domain's text is to the grammar.
ghost use Rattle.std.specs.Prelude.{◌≡◌};
ghost use Rattle.ps_grammar.specs.Marks.{is_name, is_term, is_keyword, is_quantified, is_change, is_predicate_name, is_fact_name, is_goal_name};

/// What a word is to the grammar.
#[derive(Clone, Copy, PartialEq, Eq, Debug)]
pub enum Mark {
    /// `(`
    Open,
    /// `)`
    Close,
    /// `+`
    Plus,
    /// `*`
    Times,
    /// `/`
    Divide,
    /// `=`
    Equal,
    /// `<`
    Less,
    /// `>`
    Greater,
    /// `<=`
    LessEqual,
    /// `>=`
    GreaterEqual,
    /// `-`
    Minus,
    /// The variable `?duration`.
    Duration,
    /// Any other variable.
    Variable,
    /// `:requirements`
    Requirements,
    /// `:types`
    Types,
    /// `:constants`
    Constants,
    /// `:predicates`
    Predicates,
    /// `:functions`
    Functions,
    /// `:durative-action`
    DurativeAction,
    /// `:parameters`
    Parameters,
    /// `:duration`
    DurationKey,
    /// `:condition`
    ConditionKey,
    /// `:effect`
    EffectKey,
    /// `:action`
    Action,
    /// `:derived`
    Derived,
    /// `:constraints`
    Constraints,
    /// Any other keyword.
    Keyword,
    /// A number.
    Number,
    /// `#t`
    Continuous,
    /// The name `define`.
    Define,
    /// The name `domain`.
    Domain,
    /// The name `problem`.
    Problem,
    /// The name `at`.
    At,
    /// The name `over`.
    Over,
    /// The name `start`.
    Start,
    /// The name `end`.
    End,
    /// The name `all`.
    All,
    /// The name `and`.
    And,
    /// The name `not`.
    Not,
    /// The name `or`.
    Or,
    /// The name `imply`.
    Imply,
    /// The name `exists`.
    Exists,
    /// The name `forall`.
    Forall,
    /// The name `when`.
    When,
    /// The name `preference`.
    Preference,
    /// The name `assign`.
    Assign,
    /// The name `increase`.
    Increase,
    /// The name `decrease`.
    Decrease,
    /// The name `scale-up`.
    ScaleUp,
    /// The name `scale-down`.
    ScaleDown,
    /// The name `either`.
    Either,
    /// The name `number`.
    NumberWord,
    /// Any other name.
    Name,
}

impl Mark {
    /// Whether it is a name.
    pub fn is_name(self) -> bool
        ensures { result ≡ is_name self }
    {
        match self {
            Mark::Define
            | Mark::Domain
            | Mark::Problem
            | Mark::At
            | Mark::Over
            | Mark::Start
            | Mark::End
            | Mark::All
            | Mark::And
            | Mark::Not
            | Mark::Or
            | Mark::Imply
            | Mark::Exists
            | Mark::Forall
            | Mark::When
            | Mark::Preference
            | Mark::Assign
            | Mark::Increase
            | Mark::Decrease
            | Mark::ScaleUp
            | Mark::ScaleDown
            | Mark::Either
            | Mark::NumberWord
            | Mark::Name => true,
            _ => false,
        }
    }

    /// Whether it is a term's: a name or a variable.
    pub fn is_term(self) -> bool
        ensures { result ≡ is_term self }
    {
        match self {
            Mark::Variable => true,
            _ => self.is_name(),
        }
    }

    /// Whether it is a keyword.
    pub fn is_keyword(self) -> bool
        ensures { result ≡ is_keyword self }
    {
        match self {
            Mark::Requirements
            | Mark::Types
            | Mark::Constants
            | Mark::Predicates
            | Mark::Functions
            | Mark::DurativeAction
            | Mark::Parameters
            | Mark::DurationKey
            | Mark::ConditionKey
            | Mark::EffectKey
            | Mark::Action
            | Mark::Derived
            | Mark::Constraints
            | Mark::Keyword => true,
            _ => false,
        }
    }

    /// Whether it is the head of a condition by quantifier or by alternatives, or of a conditional effect.
    pub fn is_quantified(self) -> bool
        ensures { result ≡ is_quantified self }
    {
        match self {
            Mark::Or | Mark::Imply | Mark::Exists | Mark::Forall | Mark::When => true,
            _ => false,
        }
    }

    /// Whether it changes a number.
    pub fn is_change(self) -> bool
        ensures { result ≡ is_change self }
    {
        match self {
            Mark::Assign | Mark::Increase | Mark::Decrease | Mark::ScaleUp | Mark::ScaleDown =>
                true,
            _ => false,
        }
    }

    /// Whether it may be the name of a predicate.
    pub fn is_predicate_name(self) -> bool
        ensures { result ≡ is_predicate_name self }
    {
        match self {
            Mark::And | Mark::Not => false,
            _ => self.is_name() && !self.is_quantified() && !self.is_change(),
        }
    }

    /// Whether it may be the name of a predicate at the head of a condition.
    pub fn is_fact_name(self) -> bool
        ensures { result ≡ is_fact_name self }
    {
        match self {
            Mark::And | Mark::Not | Mark::Preference => false,
            _ => self.is_name() && !self.is_quantified(),
        }
    }

    /// Whether it may be the name of a predicate at the head of a goal's condition.
    pub fn is_goal_name(self) -> bool
        ensures { result ≡ is_goal_name self }
    {
        match self {
            Mark::Preference => true,
            _ => self.is_fact_name(),
        }
    }
}
