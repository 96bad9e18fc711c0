//! The names that variables stand for.
ghost use Rattle.std.specs.Prelude.{◌≡◌, ◌∷◌, ◌++◌, []};
ghost use Rattle.ps_world.specs.Found.{IsFound};

use super::names::Name;
use std::marker::Model;

/// Names that variables stand for, the first ones first. Each name more refers to those before it, so that it takes no memory.
/// Contracts see their list.
#[cycle(env)]
#[derive(Drop)]
pub struct Env<'a> {
    names: Names<'a>,
}

#[cycle(env)]
#[derive(Drop)]
enum Names<'a> {
    Given(&'a [Name]),
    More(&'a Env<'a>, Name),
}

impl<'a> Model for Env<'a> {
    ghost use Rattle.std.specs.Prelude.{List, length};
    ghost use Rattle.ps_world.specs.declared.names.Name.{Name};

    ghost Value = { List Name };

    ghost use Rattle.ps_world.specs.Envs.{names_of};

    ghost view = { λ e. names_of e.names };

    ghost size = { length };

    ghost use Rattle.ps_world.specs.EnvFalls.{env_falls};

    ghost size_decreases = { λ e h. env_falls e.names };
}

impl<'a> Env<'a> {
    /// These names.
    pub fn of(names: &'a [Name]) -> Env<'a>
        ensures { result ≡ names.now }
    {
        Env {
            names: Names::Given(names),
        }
    }

    /// One name more.
    pub fn with(outer: &'a Env<'a>, name: Name) -> Env<'a>
        ensures { result ≡ outer.now ++ name ∷ [] }
    {
        Env {
            names: Names::More(outer, name),
        }
    }

    /// The name at a place, or how many places after the last name it is.
    pub fn find(&self, i: usize) -> Result<Name, usize>
        ensures { IsFound self.now i result }
    {
        match &self.names {
            Names::Given(names) => match names.get(i) {
                Some(name) => Ok(*name),
                None => Err(i - names.len()),
            },
            Names::More(outer, name) => match outer.find(i) {
                Ok(there) => Ok(there),
                Err(0) => Ok(*name),
                Err(more) => Err(more - 1),
            },
        }
    }
}
