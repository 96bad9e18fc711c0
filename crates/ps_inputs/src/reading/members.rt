//! The texts of members.
ghost use Rattle.std.specs.Prelude.{map};
ghost use Rattle.ps_inputs.specs.Parts.{ReadsMembers};

use super::files::read_text;
use crate::faults::Fault;
use ps_text::Files;
use ps_world::Failure;
use std::alloc::Global;

/// The text of a member, with the name of its file.
#[derive(Drop)]
pub struct MemberText {
    pub file: Vec<u8>,
    pub text: Vec<u8>,
}

/// The texts of these files, one after another. Each is kept until all files of the call are read, since a file that can't be read is
/// told before a text that is none.
pub fn read_members<F: Files>(
    alloc: Global,
    members: &[&str],
    files: &mut F,
) -> Result<Vec<MemberText>, Failure<Fault>>
    ensures { ReadsMembers (map (λ m. m.now) members.now) (F.shown files.old)
        (F.shown files.new) result }
{
    let mut texts = Vec::new(alloc);
    for member in members {
        let text = read_text(alloc, member, files)?;
        let file = Vec::from_slice(alloc, member.as_bytes())?;
        texts.push(MemberText { file, text })?;
    }
    Ok(texts)
}
