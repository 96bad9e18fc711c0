//! Why a text is no domain.
use ps_grammar::Form;
use ps_world::Name;

/// What a domain has at most so many of.
#[derive(Clone, Copy, PartialEq, Eq, Debug)]
pub enum Cap {
    /// 64 levels of parentheses.
    Depth,
    /// 256 types.
    Types,
    /// 256 predicates.
    Predicates,
    /// 256 functions.
    Functions,
    /// 256 actions.
    Actions,
    /// 6 parameters of a predicate, a function or an action.
    Params,
    /// 2 variables that quantifiers bind, in force at one place.
    Bound,
    /// 1,000 constants, which are a problem's first instances.
    Instances,
}

/// Why a text is no domain. Places count bytes from 0.
#[derive(Clone, Copy, PartialEq, Eq, Debug)]
pub enum DomainRefusal {
    /// The word here has no class.
    Lex { at: usize },
    /// The word here fits nothing, or more is wanted at the text's end.
    Unexpected { at: usize },
    /// A form of the language that isn't supported stands here.
    Unsupported { at: usize, what: Form },
    /// The name or variable here isn't declared.
    Unknown { at: usize, name: Name },
    /// The name here is declared twice in one list.
    Twice { at: usize, name: Name },
    /// The predicate or function here has another number of parameters.
    Arity { at: usize },
    /// The term here isn't of a type that may stand there, or stands where a number must.
    Kind { at: usize },
    /// The parents of this type lead back to it.
    Cycle { name: Name },
    /// What begins here is one too many.
    Limit { at: usize, which: Cap },
}
