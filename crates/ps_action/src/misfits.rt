//! Why arguments don't suit a declaration, and why a fact or a function's value can't be spoken of.
ghost use Rattle.std.specs.Prelude.{◌≡◌, length};
ghost use Rattle.std.specs.Option.{option_copied};
ghost use Rattle.ps_world.specs.Knowledge.{kind_of, misfit_by, first_misfit_by, unsuited, fault_of_fact, fault_of_value};

use super::known::{Declares, Known, Types};
use super::refusals::Misfit;
use ps_world::{Decl, EditRefusal, Fact, Name, Param};

/// Why a name can't stand at a place where this type is wanted, if it can't.
pub(crate) fn misfit_of<R: Misfit, K: Known, T: Types>(
    known: &K,
    types: &T,
    name: Name,
    want: Name,
    at: usize,
) -> Option<R>
    ensures { result
        ≡ misfit_by R.unknown R.unfit (T.types types.now) (kind_of (K.known known.now) name) want name at }
{
    match known.kind_of(name) {
        None => Some(R::no_instance(name)),
        Some(kind) if types.is_subtype(kind, want) => None,
        Some(_) => Some(R::wrong_type(at)),
    }
}

/// The first argument that is no instance or doesn't fit its parameter.
pub fn first_misfit<R: Misfit, K: Known, T: Types>(
    known: &K,
    types: &T,
    params: &[Param],
    names: &[Name],
) -> Option<R>
    requires { length params.now ≡ length names.now }
    ensures { result
        ≡ first_misfit_by R.unknown R.unfit (T.types types.now) (K.known known.now).instances params.now names.now 0 }
{
    for at in 0..params.len() {
        let found: Option<R> = misfit_of(known, types, names[at], params[at].kind, at);
        if found.is_some() {
            return found;
        }
    }
    None
}

/// Why the arguments don't suit the declaration, if they don't: `missing` where there is none.
fn unsuited_to<K: Known, D: Declares>(
    missing: EditRefusal,
    known: &K,
    domain: &D,
    decl: Option<&Decl>,
    names: &[Name],
) -> Option<EditRefusal>
    ensures { result
        ≡ unsuited missing (D.types domain.now) (K.known known.now) (option_copied decl.entry) names.now }
{
    let Some(decl) = decl else {
        return Some(missing);
    };
    let want = decl.params.len();
    let got = names.len();
    if want != got {
        return Some(EditRefusal::Arity { want, got });
    }
    first_misfit(known, domain, decl.params.as_slice(), names)
}

/// Why the fact can't be spoken of, if it can't: `NoPredicate`, `Arity`, and then for each argument `NoInstance`, `WrongType`.
pub fn fact_fault<K: Known, D: Declares>(known: &K, domain: &D, fact: &Fact) -> Option<EditRefusal>
    ensures { result ≡ fault_of_fact (D.types domain.now) (K.known known.now) fact.now }
{
    let decl = domain.predicate(fact.head);
    unsuited_to(
        EditRefusal::NoPredicate,
        known,
        domain,
        decl,
        fact.args.as_slice(),
    )
}

/// Why the function can't have a value there, if it can't: `NoFunction`, `Arity`, and then for each argument `NoInstance`,
/// `WrongType`.
pub fn value_fault<K: Known, D: Declares>(known: &K, domain: &D, fact: &Fact) -> Option<EditRefusal>
    ensures { result ≡ fault_of_value (D.types domain.now) (K.known known.now) fact.now }
{
    let decl = domain.function(fact.head);
    unsuited_to(
        EditRefusal::NoFunction,
        known,
        domain,
        decl,
        fact.args.as_slice(),
    )
}
