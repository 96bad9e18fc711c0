//! The generator's texts, which stand in no file.
ghost use Rattle.std.specs.Prelude.{◌≡◌, ◌≤◌, All, IfOk, OnOk, map};
ghost use Rattle.ps_words.specs.Words.{most_carts};
ghost use Rattle.ps_gen.specs.Texts.{texts_of};
ghost use Rattle.ps_script.specs.Kinds.{IsKind};
ghost use Rattle.ps_script.specs.declared.kinds.Kind.TheVariants as kind;
ghost use Rattle.ps_inputs.specs.Input.{generated, generated_members};
ghost use Rattle.ps_inputs.specs.Parts.{ArePushed, IsGenerated, IsNamed, IsPushed, IsScriptFrom, named};

use super::domains::{Judged, judge_domain};
use super::inputs::Unjudged;
use super::members::MemberText;
use super::scripts::{Script, push_line};
use ps_gen::{carrier_text, domain_text, helper_text, script_lines};
use ps_script::{Read, read_line};
use ps_text::Names;
use std::alloc::{AllocError, Global};

/// Reads a command line that names no file, and puts it at the end of those of a script.
fn push_command(alloc: Global, line: &[u8], script: &mut Script) -> Result<(), AllocError>
    requires { IsKind line.now kind.Command }
    ensures { OnOk result (IsPushed line.now script.old script.new) }
{
    let Read::Line(read) = read_line(alloc, &mut script.names, line)? else {
        unreachable!()
    };
    push_line(read, &mut script.lines)
}

/// Reads command lines that name no file, one after another, and puts them at the end of those of a script.
fn push_all(alloc: Global, lines: &[Vec<u8>], script: &mut Script) -> Result<(), AllocError>
    requires { All (λ line. IsKind line.items kind.Command) lines.now }
    ensures { OnOk result (ArePushed (texts_of lines.now) script.old script.new) }
{
    for line in lines {
        push_command(alloc, line.as_slice(), script)?;
    }
    Ok(())
}

/// Reads the lines of the generator's script with so many carts, after the names of a table.
fn generate_script(alloc: Global, names: Names, carts: u32) -> Result<Script, AllocError>
    requires { carts ≤ most_carts }
    ensures { IfOk result (IsScriptFrom names (generated carts).script) }
{
    let texts = script_lines(alloc, carts)?;
    let lines = Vec::new(alloc);
    let words = Vec::new(alloc);
    let mut script = Script {
        names,
        lines,
        words,
    };
    push_all(alloc, texts.as_slice(), &mut script)?;
    Ok(script)
}

/// The text of a member, kept with the name that it is told by.
fn member_text(alloc: Global, file: &[u8], text: &[u8]) -> Result<MemberText, AllocError>
    ensures { IfOk result (IsNamed file.now text.now) }
{
    let file = Vec::from_slice(alloc, file)?;
    let text = Vec::from_slice(alloc, text)?;
    Ok(MemberText { file, text })
}

/// The texts of the generator's members.
fn generate_members(alloc: Global) -> Result<Vec<MemberText>, AllocError>
    ensures { IfOk result (λ members. map named members.items ≡ generated_members) }
{
    let mut members = Vec::new(alloc);
    members.push(member_text(alloc, b"carrier", carrier_text())?)?;
    members.push(member_text(alloc, b"helper", helper_text())?)?;
    Ok(members)
}

/// Reads the generator's texts with so many carts.
pub fn generate(alloc: Global, carts: u32) -> Result<Unjudged, AllocError>
    requires { carts ≤ most_carts }
    ensures { IfOk result (IsGenerated carts) }
{
    let Judged { names, domain } = judge_domain(alloc, domain_text())?;
    let Script { names, lines, .. } = generate_script(alloc, names, carts)?;
    let members = generate_members(alloc)?;
    Ok(Unjudged {
        names,
        domain,
        lines,
        members,
    })
}
