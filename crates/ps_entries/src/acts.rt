//! The acts that words tell.
ghost use Rattle.std.specs.Prelude.{◌≡◌, if◌then◌else◌, IfOk, None, Some};
ghost use Rattle.std.specs.Option.{option_map};
ghost use Rattle.ps_entries.specs.Events.{act_of, acts_at, stepped};

use super::words::name_at;
use ps_action::Act;
use ps_text::Words;
use ps_world::{Args, Name};
use std::alloc::{AllocError, Global};

/// An action with its arguments, of which there are at most 6.
fn act_of(names: &[Name]) -> Option<Act>
    ensures { result ≡ act_of names.now }
{
    match names {
        [] => None,
        [action, args @ ..] => {
            let args = Args::of(args)?;
            Some(Act {
                action: *action,
                args,
            })
        }
    }
}

/// Takes one more word, where these are the acts so far and the names since the last `(`. Whether it fits.
fn take_word(
    acts: &mut Vec<Act>,
    since: &mut Vec<Name>,
    word: &[u8],
    name: Name,
) -> Result<bool, AllocError>
    ensures { IfOk result (λ b. stepped acts.old.items since.old.items word.now name
        ≡ (if b then Some (acts.new.items, since.new.items) else None)) }
{
    if word == b"(".as_slice() {
        since.clear();
        return Ok(true);
    }
    if word == b")".as_slice() {
        let Some(act) = act_of(since) else {
            return Ok(false);
        };
        acts.push(act)?;
        since.clear();
        return Ok(true);
    }
    since.push(name)?;
    Ok(true)
}

/// The acts of words such as `(move leia hall) (move leia yard)` from a place on.
pub fn acts_at(
    alloc: Global,
    words: &Words,
    names: &[Name],
    at: usize,
) -> Result<Option<Vec<Act>>, AllocError>
    ensures { IfOk result (λ o. option_map (λ v. v.items) o ≡ acts_at words.now names.now at) }
{
    let mut acts = Vec::new(alloc);
    let mut since = Vec::new(alloc);
    for i in at..words.len() {
        if !take_word(&mut acts, &mut since, words.word(i), name_at(names, i))? {
            return Ok(None);
        }
    }
    Ok(Some(acts))
}
