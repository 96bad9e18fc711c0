//! Names, facts and terms told in words.
use ps_text::Names;
use ps_world::Name;
use std::str;
use std::test::Fail;

/// Adds a name.
pub fn push_name(names: &Names, name: Name, text: &mut String) -> Result<(), Fail> {
    if (name.0 as usize) < names.len() {
        text.push_str(str::from_utf8(names.text(name))?)?;
    }
    Ok(())
}

/// Adds a head and its arguments, after a space.
pub fn push_listed(
    names: &Names,
    head: Name,
    args: &[Name],
    text: &mut String,
) -> Result<(), Fail> {
    text.push_str(" (")?;
    push_name(names, head, text)?;
    for name in args {
        text.push_str(" ")?;
        push_name(names, *name, text)?;
    }
    text.push_str(")")?;
    Ok(())
}
