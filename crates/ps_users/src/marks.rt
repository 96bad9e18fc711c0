//! Flags of acts.
ghost use Rattle.std.specs.Prelude.{◌≡◌, ◌&&◌, nat_eq};
ghost use Rattle.std.specs.List.{list_all, list_any};
ghost use Rattle.ps_action.specs.Arcs.{meets};
ghost use Rattle.ps_users.specs.Users.{Marks};

use ps_action::Touched;

/// Whether each flag is set.
pub fn are_set(flags: &[bool]) -> bool
    ensures { result ≡ list_all (λ flag. flag) flags.now }
{
    flags.iter().all(|flag| *flag)
}

/// Sets the flag at a place, if there is one.
fn mark_place(flags: &mut [bool], place: usize)
    ensures { Marks flags.old (λ j. nat_eq j place) flags.new }
{
    if place < flags.len() {
        flags[place] = true;
    }
}

/// Sets the flags at these places, where there are any.
pub fn mark_places(flags: &mut [bool], places: &[u32])
    ensures { Marks flags.old (λ j. list_any (nat_eq j) places.now) flags.new }
{
    for place in places {
        mark_place(flags, *place as usize);
    }
}

/// Sets the flags at the places of those that use a thing or a place, if it meets what is touched.
pub fn mark_one(flags: &mut [bool], touched: &Touched, used: &Touched, places: &[u32])
    ensures { Marks flags.old (λ j. meets touched.now used.now && list_any (nat_eq j) places.now) flags.new }
{
    if touched.meets(used) {
        mark_places(flags, places);
    }
}
