//! Who may be together.
ghost use Rattle.std.specs.Prelude.{◌≡◌};
ghost use Rattle.ps_rules.specs.Sound.{member_name};
ghost use Rattle.ps_inputs.specs.Members.{first_repeated, has_member, is_crowd};

use ps_machine::Member;
use ps_world::Name;

/// The most performers.
const MOST_PERFORMERS: usize = 64;

/// The most observers.
const MOST_OBSERVERS: usize = 16;

/// The name of a member.
fn member_name(member: &Member) -> Name
    ensures { result ≡ member_name member.now }
{
    match member {
        Member::Performer(performer) => performer.name,
        Member::Observer(observer) => observer.name,
    }
}

/// Whether there are more than 64 performers or 16 observers.
pub fn is_crowd(members: &[Member]) -> bool
    ensures { result ≡ is_crowd members.now }
{
    let mut performers = 0;
    let mut observers = 0;
    for member in members {
        match member {
            Member::Performer(_) => performers += 1,
            Member::Observer(_) => observers += 1,
        }
    }
    performers > MOST_PERFORMERS || observers > MOST_OBSERVERS
}

/// Whether one of these members has this name.
fn has_member(name: Name, members: &[Member]) -> bool
    ensures { result ≡ has_member name members.now }
{
    for member in members {
        if member_name(member) == name {
            return true;
        }
    }
    false
}

/// The name of the first member that an earlier one has.
pub fn first_repeated(members: &[Member]) -> Option<Name>
    ensures { result ≡ first_repeated members.now }
{
    for (i, member) in members.iter().enumerate() {
        let name = member_name(member);
        if has_member(name, &members[..i]) {
            return Some(name);
        }
    }
    None
}
