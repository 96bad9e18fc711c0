//! Printing names, and what a domain declares with them.
ghost use Rattle.std.specs.Prelude.{◌≡◌, ◌++◌, map, OnOk};
ghost use Rattle.ps_world.specs.Names.{name_text};
ghost use Rattle.ps_world.specs.DomainTexts.{after_spaces, spaced, typed_text, param_text, decl_text};

use super::writer::Writer;
use ps_text::Names;
use ps_world::{Decl, Name, Param};
use std::alloc::AllocError;

/// Adds a name. One that the table hasn't adds nothing.
pub fn write_name(text: &mut Writer, names: &Names, name: Name) -> Result<(), AllocError>
    ensures { OnOk result (text.new ≡ text.old ++ name_text names.now name) }
{
    if name.0 as usize >= names.len() {
        return Ok(());
    }
    match names.text(name) {
        // Most variables are one letter.
        [letter] => text.push(*letter),
        letters => text.extend_from_slice(letters),
    }
}

/// Adds a name with its type.
pub fn write_typed(text: &mut Writer, names: &Names, param: &Param) -> Result<(), AllocError>
    ensures { OnOk result (text.new ≡ text.old ++ typed_text names.now param.now) }
{
    write_name(text, names, param.name)?;
    text.extend_from_slice(b" - ")?;
    write_name(text, names, param.kind)?;
    Ok(())
}

/// Adds names with their types, each after a space.
pub fn write_all_typed(text: &mut Writer, names: &Names, params: &[Param]) -> Result<(), AllocError>
    ensures { OnOk result (text.new ≡ text.old
        ++ after_spaces (map (typed_text names.now) params.now)) }
{
    for param in params {
        text.push(b' ')?;
        write_typed(text, names, param)?;
    }
    Ok(())
}

fn write_param(text: &mut Writer, names: &Names, param: &Param) -> Result<(), AllocError>
    ensures { OnOk result (text.new ≡ text.old ++ param_text names.now param.now) }
{
    text.push(b'?')?;
    write_typed(text, names, param)?;
    Ok(())
}

/// Adds parameters, each after a space.
fn write_more_params(text: &mut Writer, names: &Names, params: &[Param]) -> Result<(), AllocError>
    ensures { OnOk result (text.new ≡ text.old
        ++ after_spaces (map (param_text names.now) params.now)) }
{
    for param in params {
        text.push(b' ')?;
        write_param(text, names, param)?;
    }
    Ok(())
}

/// Adds parameters, with a space between neighbours.
pub fn write_params(text: &mut Writer, names: &Names, params: &[Param]) -> Result<(), AllocError>
    ensures { OnOk result (text.new ≡ text.old
        ++ spaced (map (param_text names.now) params.now)) }
{
    match params {
        [] => Ok(()),
        [first, rest @ ..] => {
            write_param(text, names, first)?;
            write_more_params(text, names, rest)?;
            Ok(())
        }
    }
}

/// Adds the declaration of a predicate or a function. A name that the table hasn't adds nothing.
fn write_decl(text: &mut Writer, names: &Names, decl: &Decl) -> Result<(), AllocError>
    ensures { OnOk result (text.new ≡ text.old ++ decl_text names.now decl.now) }
{
    text.push(b'(')?;
    write_name(text, names, decl.name)?;
    write_more_params(text, names, decl.params.as_slice())?;
    text.push(b')')?;
    Ok(())
}

/// Adds declarations, each after a space.
pub fn write_decls(text: &mut Writer, names: &Names, decls: &[Decl]) -> Result<(), AllocError>
    ensures { OnOk result (text.new ≡ text.old
        ++ after_spaces (map (decl_text names.now) decls.now)) }
{
    for decl in decls {
        text.push(b' ')?;
        write_decl(text, names, decl)?;
    }
    Ok(())
}

/// Adds the declaration of a predicate or a function. A name that the table hasn't adds nothing.
pub fn push_decl(text: &mut Vec<u8>, names: &Names, decl: &Decl) -> Result<(), AllocError>
    ensures { OnOk result (text.new.items ≡ text.old.items ++ decl_text names.now decl.now) }
{
    let mut writer = Writer::over(text);
    let written = write_decl(&mut writer, names, decl);
    writer.give_back(text, written)
}
