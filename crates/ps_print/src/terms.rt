//! Printing terms, and facts with parameters in them.
ghost use Rattle.std.specs.Prelude.{◌≡◌, ◌++◌, map, OnOk};
ghost use Rattle.ps_world.specs.DomainTexts.{after_spaces, term_text, lifted_text};

use super::declared::write_name;
use super::writer::Writer;
use ps_text::Names;
use ps_world::{Lifted, Name, Param, Term};
use std::alloc::AllocError;

/// Adds a term. A variable without a parameter is printed as a parameter named `object`.
pub fn write_term(
    text: &mut Writer,
    names: &Names,
    params: &[Param],
    term: &Term,
) -> Result<(), AllocError>
    ensures { OnOk result (text.new ≡ text.old
        ++ term_text names.now params.now term.now) }
{
    match term {
        Term::Var(i) => {
            let name = params
                .get(*i as usize)
                .map_or(Name::OBJECT, |param| param.name);
            text.push(b'?')?;
            write_name(text, names, name)?;
            Ok(())
        }
        Term::Const(name) => {
            write_name(text, names, *name)?;
            Ok(())
        }
    }
}

/// Adds terms, each after a space.
fn write_terms(
    text: &mut Writer,
    names: &Names,
    params: &[Param],
    terms: &[Term],
) -> Result<(), AllocError>
    ensures { OnOk result (text.new ≡ text.old
        ++ after_spaces (map (term_text names.now params.now) terms.now)) }
{
    for term in terms {
        text.push(b' ')?;
        write_term(text, names, params, term)?;
    }
    Ok(())
}

/// Adds a predicate or a function at its terms.
pub fn write_lifted(
    text: &mut Writer,
    names: &Names,
    params: &[Param],
    lifted: &Lifted,
) -> Result<(), AllocError>
    ensures { OnOk result (text.new ≡ text.old
        ++ lifted_text names.now params.now lifted.now) }
{
    text.push(b'(')?;
    write_name(text, names, lifted.head)?;
    write_terms(text, names, params, lifted.terms.as_slice())?;
    text.push(b')')?;
    Ok(())
}
