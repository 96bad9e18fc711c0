//! Printing a domain.
ghost use Rattle.std.specs.Prelude.{◌≡◌, ◌++◌, codes, map, IfOk, OnOk};
ghost use Rattle.std.specs.List.{flat_map};
ghost use Rattle.ps_world.specs.Lines.{line_end};
ghost use Rattle.ps_world.specs.Names.{name_text};
ghost use Rattle.ps_world.specs.DomainTexts.{typed_text, decl_text, section_lines, domain_text};

use super::actions::write_actions;
use super::declared::{write_all_typed, write_decls, write_name};
use super::writer::Writer;
use ps_text::Names;
use ps_world::{Decl, Domain, Name, Param};
use std::alloc::{AllocError, Global};

/// Adds the line of a section of names with their types, unless there is none.
fn write_typed_section(
    text: &mut Writer,
    names: &Names,
    key: &[u8],
    params: &[Param],
) -> Result<(), AllocError>
    ensures { OnOk result (text.new ≡ text.old
        ++ flat_map (λ line. line ++ line_end)
        (section_lines key.now (map (typed_text names.now) params.now))) }
{
    match params {
        [] => Ok(()),
        [_, ..] => {
            text.push(b'(')?;
            text.extend_from_slice(key)?;
            write_all_typed(text, names, params)?;
            text.extend_from_slice(b")\n")?;
            Ok(())
        }
    }
}

/// Adds the line of a section of declarations, unless there is none.
fn write_decl_section(
    text: &mut Writer,
    names: &Names,
    key: &[u8],
    decls: &[Decl],
) -> Result<(), AllocError>
    ensures { OnOk result (text.new ≡ text.old
        ++ flat_map (λ line. line ++ line_end)
        (section_lines key.now (map (decl_text names.now) decls.now))) }
{
    match decls {
        [] => Ok(()),
        [_, ..] => {
            text.push(b'(')?;
            text.extend_from_slice(key)?;
            write_decls(text, names, decls)?;
            text.extend_from_slice(b")\n")?;
            Ok(())
        }
    }
}

/// Adds the first line of a domain.
fn write_first_line(text: &mut Writer, names: &Names, name: Name) -> Result<(), AllocError>
    ensures { OnOk result (text.new ≡ text.old
        ++ ((codes "(define (domain " ++ (name_text names.now name ++ codes ")")) ++ line_end)) }
{
    text.extend_from_slice(b"(define (domain ")?;
    write_name(text, names, name)?;
    text.extend_from_slice(b")\n")?;
    Ok(())
}

/// Writes the canonical text of a domain.
fn write_domain(text: &mut Writer, names: &Names, domain: &Domain) -> Result<(), AllocError>
    ensures { OnOk result (text.new ≡ text.old ++ domain_text names.now domain.now) }
{
    write_first_line(text, names, domain.name)?;
    write_typed_section(text, names, b":types", domain.types.as_slice())?;
    write_typed_section(text, names, b":constants", domain.constants.as_slice())?;
    write_decl_section(text, names, b":predicates", domain.predicates.as_slice())?;
    write_decl_section(text, names, b":functions", domain.functions.as_slice())?;
    write_actions(text, names, domain.actions.as_slice())?;
    text.extend_from_slice(b")\n")?;
    Ok(())
}

/// The canonical text of a domain, with the names of this table. A name that the table hasn't is printed as nothing.
pub fn print_domain(alloc: Global, names: &Names, domain: &Domain) -> Result<Vec<u8>, AllocError>
    ensures { IfOk result (λ text. text.items ≡ domain_text names.now domain.now) }
{
    let mut text = Vec::new(alloc);
    let mut writer = Writer::over(&mut text);
    let written = write_domain(&mut writer, names, domain);
    writer.give_back(&mut text, written)?;
    Ok(text)
}
