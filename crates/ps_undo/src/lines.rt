//! The parts of what is known, each with the line of the edit that sets it.
ghost use Rattle.std.specs.Prelude.{◌≡◌, ◌++◌, codes, OnOk};
ghost use Rattle.ps_world.specs.Names.{name_text};
ghost use Rattle.ps_world.specs.Numbers.{number_text};
ghost use Rattle.ps_world.specs.Texts.{args_text, edit_text, fact_text, value_text};
ghost use Rattle.ps_world.specs.declared.edits.Edit.TheVariants.{AddFact};
ghost use Rattle.ps_undo.specs.Saved.{set_instance, set_value};

use ps_text::{NUMBER_BYTES, Names, print_number};
use ps_world::{Edit, Fact, Name, Num};
use std::alloc::AllocError;

/// A part of what is known, which one edit sets.
pub trait Part: Copy + Ord {
    ghost use Rattle.ps_world.specs.declared.edits.Edit.{Edit};

    /// The edit that sets it.
    ghost set: { Self → Edit };

    /// The edit that sets it.
    fn edit(&self) -> Edit
        ensures { result ≡ set self.now };

    /// Adds the line of that edit.
    fn push_line(&self, names: &Names, out: &mut Vec<u8>) -> Result<(), AllocError>
        ensures { OnOk result (out.new.items ≡ out.old.items ++ edit_text names.now (set self.now)) };
}

/// Adds a name's text, or nothing where the table hasn't the name.
fn push_name(name: Name, names: &Names, out: &mut Vec<u8>) -> Result<(), AllocError>
    ensures { OnOk result (out.new.items ≡ out.old.items ++ name_text names.now name) }
{
    if (name.0 as usize) < names.len() {
        out.extend_from_slice(names.text(name))?;
    }
    Ok(())
}

/// Adds names, each after a space.
fn push_args(args: &[Name], names: &Names, out: &mut Vec<u8>) -> Result<(), AllocError>
    ensures { OnOk result (out.new.items ≡ out.old.items ++ args_text names.now args.now) }
{
    for name in args {
        out.push(b' ')?;
        push_name(*name, names, out)?;
    }
    Ok(())
}

/// Adds a head with its arguments.
fn push_fact(fact: &Fact, names: &Names, out: &mut Vec<u8>) -> Result<(), AllocError>
    ensures { OnOk result (out.new.items ≡ out.old.items ++ fact_text names.now fact.now) }
{
    out.push(b'(')?;
    push_name(fact.head, names, out)?;
    push_args(fact.args.as_slice(), names, out)?;
    out.push(b')')?;
    Ok(())
}

/// Adds a number's text.
fn push_number(number: Num, out: &mut Vec<u8>) -> Result<(), AllocError>
    ensures { OnOk result (out.new.items ≡ out.old.items ++ number_text number) }
{
    let mut bytes = [0; NUMBER_BYTES];
    let count = print_number(number, &mut bytes);
    out.extend_from_slice(&bytes[..count])
}

/// Adds words, and an instance with its type after them.
fn push_instance_after(
    words: &[u8],
    instance: &(Name, Name),
    names: &Names,
    out: &mut Vec<u8>,
) -> Result<(), AllocError>
    ensures { OnOk result (out.new.items ≡ out.old.items ++ (words.now
        ++ (name_text names.now instance.now.0 ++ (codes " " ++ name_text names.now instance.now.1)))) }
{
    out.extend_from_slice(words)?;
    push_name(instance.0, names, out)?;
    out.push(b' ')?;
    push_name(instance.1, names, out)?;
    Ok(())
}

/// Adds words, and a fact after them.
fn push_fact_after(
    words: &[u8],
    fact: &Fact,
    names: &Names,
    out: &mut Vec<u8>,
) -> Result<(), AllocError>
    ensures { OnOk result (out.new.items
        ≡ out.old.items ++ (words.now ++ fact_text names.now fact.now)) }
{
    out.extend_from_slice(words)?;
    push_fact(fact, names, out)
}

/// Adds words, and a term and its value after them.
fn push_term_after(
    words: &[u8],
    value: &(Fact, Num),
    names: &Names,
    out: &mut Vec<u8>,
) -> Result<(), AllocError>
    ensures { OnOk result (out.new.items ≡ out.old.items ++ (words.now
        ++ (fact_text names.now value.now.0 ++ (codes " " ++ number_text value.now.1)))) }
{
    push_fact_after(words, &value.0, names, out)?;
    out.push(b' ')?;
    push_number(value.1, out)?;
    Ok(())
}

/// Adds words, and the value of a term after them.
fn push_value_after(
    words: &[u8],
    value: &(Fact, Num),
    names: &Names,
    out: &mut Vec<u8>,
) -> Result<(), AllocError>
    ensures { OnOk result (out.new.items ≡ out.old.items
        ++ (words.now ++ value_text names.now value.now.0 value.now.1)) }
{
    out.extend_from_slice(words)?;
    push_term_after(b"(= ", value, names, out)?;
    out.push(b')')?;
    Ok(())
}

/// An instance with its type.
impl Part for (Name, Name) {
    ghost set = { set_instance };

    fn edit(&self) -> Edit {
        Edit::AddInstance(self.0, self.1)
    }

    fn push_line(&self, names: &Names, out: &mut Vec<u8>) -> Result<(), AllocError> {
        push_instance_after(b"set instance ", self, names, out)
    }
}

impl Part for Fact {
    ghost set = { AddFact };

    fn edit(&self) -> Edit {
        Edit::AddFact(*self)
    }

    fn push_line(&self, names: &Names, out: &mut Vec<u8>) -> Result<(), AllocError> {
        push_fact_after(b"set predicate ", self, names, out)
    }
}

/// A term with its value.
impl Part for (Fact, Num) {
    ghost set = { set_value };

    fn edit(&self) -> Edit {
        Edit::SetValue(self.0, self.1)
    }

    fn push_line(&self, names: &Names, out: &mut Vec<u8>) -> Result<(), AllocError> {
        push_value_after(b"set function ", self, names, out)
    }
}
