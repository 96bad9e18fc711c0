//! Rules over places.
ghost use Rattle.std.specs.Prelude.{◌≡◌, None, length};
ghost use Rattle.std.specs.List.{list_all, list_any};
ghost use Rattle.ps_closing.specs.Closing.{AreWithin, has, is_out, is_ready};

/// A ground action without its deletes: the places that it needs in the set, those that it needs and makes itself, and those that it
/// makes.
#[derive(Drop)]
pub struct Rule {
    pub needs: Vec<usize>,
    pub own: Vec<usize>,
    pub gives: Vec<usize>,
}

/// Whether a place is the one that is left out.
pub fn is_out(out: Option<usize>, place: usize) -> bool
    ensures { result ≡ is_out out place }
{
    match out {
        Some(left) => left == place,
        None => false,
    }
}

/// Whether one of these places is left out.
pub fn has_out(out: Option<usize>, places: &[usize]) -> bool
    ensures { result ≡ list_any (is_out out) places.now }
{
    for place in places {
        if is_out(out, *place) {
            return true;
        }
    }
    false
}

/// Whether all these places are set.
pub fn are_set(flags: &[bool], places: &[usize]) -> bool
    requires { AreWithin (length flags.now) places.now }
    ensures { result ≡ list_all (has flags.now) places.now }
{
    for place in places {
        if !flags[*place] {
            return false;
        }
    }
    true
}

/// Whether a place is set. None is past the last.
fn is_set(flags: &[bool], place: usize) -> bool
    ensures { result ≡ has flags.now place }
{
    match flags.get(place) {
        Some(set) => *set,
        None => false,
    }
}

/// Whether all these places are set. None is past the last.
pub fn all_set(flags: &[bool], places: &[usize]) -> bool
    ensures { result ≡ list_all (has flags.now) places.now }
{
    for place in places {
        if !is_set(flags, *place) {
            return false;
        }
    }
    true
}

/// Whether a rule is usable where nothing is left out.
pub fn is_used(flags: &[bool], rule: &Rule) -> bool
    ensures { result ≡ is_ready None flags.now rule.now }
{
    all_set(flags, &rule.needs)
}
