//! The lines of the script.
ghost use Rattle.std.specs.Prelude.{◌≡◌, ◌+◌, ◌<◌, ◌≤◌, [], ◌∷◌, ◌++◌, map, IfOk, OnOk};
ghost use Rattle.std.specs.List.{flat_map};
ghost use Rattle.ps_gen.specs.Texts.{cart_name, carts_of, line_on, stage_lines, trip_lines, most_carts, script_lines, texts_of};

use std::alloc::{AllocError, Global};

/// The name of a cart: `c`, and its number in three digits.
fn cart_name(cart: u32) -> [u8; 4]
    ensures { result ≡ cart_name cart }
{
    let hundreds = (cart / 100 % 10) as u8;
    let tens = (cart / 10 % 10) as u8;
    [b'c', b'0' + hundreds, b'0' + tens, b'0' + (cart % 10) as u8]
}

/// A line in which a cart's name stands between these words.
fn line_on(alloc: Global, before: &[u8], after: &[u8], cart: u32) -> Result<Vec<u8>, AllocError>
    ensures { IfOk result (λ line. line.items ≡ line_on before.now after.now cart) }
{
    let name = cart_name(cart);
    [before, name.as_slice(), after].concat(alloc)
}

/// Adds a line.
fn push_line(alloc: Global, line: &[u8], lines: &mut Vec<Vec<u8>>) -> Result<(), AllocError>
    ensures { OnOk result (texts_of lines.new.items ≡ texts_of lines.old.items ++ line.now ∷ []) }
{
    lines.push(Vec::from_slice(alloc, line)?)?;
    Ok(())
}

/// Adds the lines that set the spots, and which of them is next to which.
fn push_stage(alloc: Global, lines: &mut Vec<Vec<u8>>) -> Result<(), AllocError>
    ensures { OnOk result (texts_of lines.new.items ≡ texts_of lines.old.items ++ stage_lines) }
{
    push_line(alloc, b"set instance store spot", lines)?;
    push_line(alloc, b"set instance aisle spot", lines)?;
    push_line(alloc, b"set instance dock spot", lines)?;
    push_line(alloc, b"set predicate (next store aisle)", lines)?;
    push_line(alloc, b"set predicate (next aisle dock)", lines)
}

/// Adds a line on each cart, with its name between these words.
fn push_on_each(
    alloc: Global,
    before: &[u8],
    after: &[u8],
    carts: u32,
    lines: &mut Vec<Vec<u8>>,
) -> Result<(), AllocError>
    ensures { OnOk result (texts_of lines.new.items ≡ texts_of lines.old.items
        ++ map (line_on before.now after.now) (carts_of carts)) }
{
    for cart in 1..=carts {
        lines.push(line_on(alloc, before, after, cart)?)?;
    }
    Ok(())
}

/// Adds the lines that bring the carts to the dock, one cart after the other.
fn push_trips(alloc: Global, carts: u32, lines: &mut Vec<Vec<u8>>) -> Result<(), AllocError>
    ensures { OnOk result (texts_of lines.new.items ≡ texts_of lines.old.items
        ++ flat_map trip_lines (carts_of carts)) }
{
    for cart in 1..=carts {
        lines.push(line_on(alloc, b"set goal (and (at ", b" dock))", cart)?)?;
        push_line(alloc, b"run", lines)?;
    }
    Ok(())
}

/// The command lines of the script, in which this many carts, at most 100, are brought from the store to the dock, one after the other.
pub fn script_lines(alloc: Global, carts: u32) -> Result<Vec<Vec<u8>>, AllocError>
    requires { carts ≤ most_carts }
    ensures { IfOk result (λ lines. texts_of lines.items ≡ script_lines carts) }
{
    let mut lines = Vec::new(alloc);
    push_stage(alloc, &mut lines)?;
    push_on_each(alloc, b"set instance ", b" cart", carts, &mut lines)?;
    push_on_each(alloc, b"set predicate (at ", b" store)", carts, &mut lines)?;
    push_trips(alloc, carts, &mut lines)?;
    Ok(lines)
}
