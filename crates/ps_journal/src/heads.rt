//! The lines that a journal begins with.
ghost use Rattle.std.specs.Prelude.{◌≡◌, ◌++◌, OnOk};
ghost use Rattle.ps_rules.specs.Heads.{head_text, settings_line};

use super::printed::push_number;
use std::alloc::AllocError;

/// Adds the line of these settings, without the LF that ends it: how many states a search for a plan may reach, and how often a run's
/// plan may be made anew.
pub fn push_settings(settings: (u32, u8), text: &mut Vec<u8>) -> Result<(), AllocError>
    ensures { OnOk result (text.new.items ≡ text.old.items ++ settings_line settings) }
{
    let (budget, replans) = settings;
    text.extend_from_slice(b"settings budget ")?;
    push_number(u64::from(budget), text)?;
    text.extend_from_slice(b" replans ")?;
    push_number(u64::from(replans), text)
}

/// Adds the lines that a journal begins with: of version 2 with these settings, of version 1 where there are none.
pub fn push_head(settings: Option<(u32, u8)>, text: &mut Vec<u8>) -> Result<(), AllocError>
    ensures { OnOk result (text.new.items ≡ text.old.items ++ head_text settings) }
{
    match settings {
        None => text.extend_from_slice(b"plansys-journal 1\n"),
        Some(settings) => {
            text.extend_from_slice(b"plansys-journal 2\n")?;
            push_settings(settings, text)?;
            text.extend_from_slice(b"\n")?;
            Ok(())
        }
    }
}
