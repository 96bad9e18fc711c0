//! For each place the rules that need it.
ghost use Rattle.std.specs.Prelude.{◌≡◌, ◌<◌, [], ◌∷◌, All, IfOk, OnOk, length};
ghost use Rattle.ps_closing.specs.Closing.{AreWithin, FitsIn};
ghost use Rattle.ps_closing.specs.Users.{AreUsers, Enters, HaveNone};

use super::rule::Rule;
use std::alloc::{AllocError, Global};

/// Puts a rule among the users of a place.
fn add_user(users: &mut [Vec<usize>], place: usize, rule: usize) -> Result<(), AllocError>
    requires { place < length users.old }
    ensures { OnOk result (Enters (place ∷ []) rule users.old users.new) }
{
    users[place].push(rule)?;
    Ok(())
}

/// Puts a rule among the users of these places.
fn add_users(users: &mut [Vec<usize>], places: &[usize], rule: usize) -> Result<(), AllocError>
    requires { AreWithin (length users.old) places.now }
    ensures { OnOk result (Enters places.now rule users.old users.new) }
{
    for place in places {
        add_user(users, *place, rule)?;
    }
    Ok(())
}

/// No users, for so many places.
fn no_users(alloc: Global, places: usize) -> Result<Vec<Vec<usize>>, AllocError>
    ensures wide { IfOk result (λ users. length users.items ≡ places) }
    ensures none { IfOk result (λ users. HaveNone users.items) }
{
    let mut users = Vec::with_capacity(alloc, places)?;
    for _place in 0..places {
        users.push(Vec::new(alloc))?;
    }
    Ok(users)
}

/// Puts each rule among the users of the places that it needs.
fn enter_rules(users: &mut [Vec<usize>], rules: &[Rule]) -> Result<(), AllocError>
    requires none { HaveNone users.old }
    requires fits { All (FitsIn (length users.old)) rules.now }
    ensures { OnOk result (AreUsers rules.now users.new) }
{
    for rule in 0..rules.len() {
        add_users(users, &rules[rule].needs, rule)?;
    }
    Ok(())
}

/// The users of each place.
pub fn users_of(alloc: Global, rules: &[Rule], places: usize) -> Result<Vec<Vec<usize>>, AllocError>
    requires { All (FitsIn places) rules.now }
    ensures { IfOk result (λ users. AreUsers rules.now users.items) }
{
    let mut users = no_users(alloc, places)?;
    enter_rules(&mut users, rules)?;
    Ok(users)
}
