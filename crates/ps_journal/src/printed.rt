//! What has a text, and the texts of numbers and names.
ghost use Rattle.std.specs.Prelude.{◌≡◌, ◌++◌, codes, OnOk};
ghost use Rattle.std.specs.Fmt.{decimal};
ghost use Rattle.std.specs.List.{flat_map};
ghost use Rattle.ps_world.specs.Names.{name_text};

use itoa::Buffer;
use ps_text::Names;
use ps_world::Name;
use std::alloc::AllocError;

/// Room for most lines, so that their texts need not grow.
pub const LINE_BYTES: usize = 64;

/// A value that has a text, with a table of names. A name that the table hasn't is written as nothing.
pub trait Printed {
    ghost use Rattle.std.specs.Prelude.{ℕ, List};
    ghost use Rattle.ps_world.specs.Names.{Table};

    /// Its text.
    ghost text: { Table → Self → List ℕ };

    /// Adds its text.
    fn print(&self, names: &Names, out: &mut Vec<u8>) -> Result<(), AllocError>
        ensures { OnOk result (out.new.items ≡ out.old.items ++ text names.now self.now) };
}

/// Adds words, and a value's text after them.
pub fn push_after<T: Printed>(
    words: &[u8],
    value: &T,
    names: &Names,
    out: &mut Vec<u8>,
) -> Result<(), AllocError>
    ensures { OnOk result (out.new.items ≡ out.old.items
        ++ (words.now ++ T.text names.now value.now)) }
{
    out.extend_from_slice(words)?;
    value.print(names, out)
}

/// Adds a space, and a value's text after it.
pub fn push_spaced<T: Printed>(
    value: &T,
    names: &Names,
    out: &mut Vec<u8>,
) -> Result<(), AllocError>
    ensures { OnOk result (out.new.items ≡ out.old.items
        ++ (codes " " ++ T.text names.now value.now)) }
{
    out.push(b' ')?;
    value.print(names, out)
}

/// Adds words, a value's text, a space, and another value's text.
pub fn push_both<T: Printed, U: Printed>(
    words: &[u8],
    first: &T,
    second: &U,
    names: &Names,
    out: &mut Vec<u8>,
) -> Result<(), AllocError>
    ensures { OnOk result (out.new.items ≡ out.old.items ++ (words.now
        ++ (T.text names.now first.now ++ (codes " " ++ U.text names.now second.now)))) }
{
    push_after(words, first, names, out)?;
    push_spaced(second, names, out)
}

/// Adds the texts of values, one after the other.
pub fn push_all<T: Printed>(
    values: &[T],
    names: &Names,
    out: &mut Vec<u8>,
) -> Result<(), AllocError>
    ensures { OnOk result (out.new.items ≡ out.old.items
        ++ flat_map (T.text names.now) values.now) }
{
    for value in values {
        value.print(names, out)?;
    }
    Ok(())
}

/// Adds a number in decimal digits.
// Most numbers of a journal have one.
#[tactic(auto, using(std::proofs::lemmas::Fmt::decimal_digit))]
pub fn push_number(number: u64, text: &mut Vec<u8>) -> Result<(), AllocError>
    ensures { OnOk result (text.new.items ≡ text.old.items ++ decimal number) }
{
    if number < 10 {
        text.push(b'0' + number as u8)?;
        return Ok(());
    }
    let mut digits = Buffer::new();
    text.extend_from_slice(digits.format(number).as_bytes())
}

impl Printed for u64 {
    ghost text = { λ names n. decimal n };

    fn print(&self, _names: &Names, out: &mut Vec<u8>) -> Result<(), AllocError> {
        push_number(*self, out)
    }
}

impl Printed for u32 {
    ghost text = { λ names n. decimal n };

    fn print(&self, names: &Names, out: &mut Vec<u8>) -> Result<(), AllocError> {
        u64::from(*self).print(names, out)
    }
}

impl Printed for u8 {
    ghost text = { λ names n. decimal n };

    fn print(&self, names: &Names, out: &mut Vec<u8>) -> Result<(), AllocError> {
        u64::from(*self).print(names, out)
    }
}

impl Printed for usize {
    ghost text = { λ names n. decimal n };

    fn print(&self, names: &Names, out: &mut Vec<u8>) -> Result<(), AllocError> {
        (*self as u64).print(names, out)
    }
}

/// The text of a name, or nothing where the table hasn't the name.
pub fn name_text(names: &Names, name: Name) -> &[u8]
    ensures { result.now ≡ name_text names.now name }
{
    if (name.0 as usize) < names.len() {
        names.text(name)
    } else {
        b""
    }
}

impl Printed for Name {
    ghost text = { name_text };

    fn print(&self, names: &Names, out: &mut Vec<u8>) -> Result<(), AllocError> {
        out.extend_from_slice(name_text(names, *self))
    }
}
