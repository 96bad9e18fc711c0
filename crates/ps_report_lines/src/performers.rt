//! Who reports.
ghost use Rattle.std.specs.Prelude.{◌≡◌, ◌++◌, ◌∷◌, [], map, filter_map, IfOk, OnOk};
ghost use Rattle.ps_rules.specs.Members.{as_performer};
ghost use Rattle.ps_report_lines.specs.Lines.{reporters};

use ps_machine::{Input, Member};
use ps_world::Name;
use std::alloc::{AllocError, Global};

/// Adds the name of a member, if it is a performer.
fn push_reporter(who: &mut Vec<Name>, member: &Member) -> Result<(), AllocError>
    ensures { OnOk result (who.new.items
        ≡ who.old.items ++ map (λ p. p.name) (filter_map as_performer (member.now ∷ []))) }
{
    match member {
        Member::Performer(performer) => {
            who.push(performer.name)?;
            Ok(())
        }
        Member::Observer(_) => Ok(()),
    }
}

/// The names of the performers, in order: who reports has the place of its name here.
pub fn reporters(alloc: Global, input: &Input) -> Result<Vec<Name>, AllocError>
    ensures { IfOk result (λ who. who.items ≡ reporters input.now) }
{
    let mut who = Vec::new(alloc);
    for member in input.members.as_slice() {
        push_reporter(&mut who, member)?;
    }
    Ok(who)
}
