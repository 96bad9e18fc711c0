//! A fact with parameters, in little room.
ghost use Rattle.std.specs.Prelude.{◌≡◌, IfOk};

use super::lists::Duplicate;
use super::names::Name;
use super::schemas::{Lifted, Term, Terms};
use std::alloc::{AllocError, Global};
use std::marker::Model;

/// A head and its terms: most facts have three at most.
#[derive(Drop)]
enum Packing {
    None(Name),
    One(Name, Term),
    Two(Name, Term, Term),
    Three(Name, Term, Term, Term),
    More(Box<Lifted>),
}

/// A fact with parameters as conditions hold it: its terms stand in it where they are three at most, and in a box where they are more. So a
/// condition takes little room, of which a long list of facts has very many. Contracts see the fact.
#[derive(Drop)]
pub struct PackedLifted {
    packing: Packing,
}

impl Model for PackedLifted {
    ghost use Rattle.ps_world.specs.declared.schemas.Lifted.{Lifted};
    ghost use Rattle.ps_world.specs.contracts.schemas.Lifted.{the_row};
    ghost use Rattle.ps_world.specs.Packed.{unpacked};

    ghost Value = { Lifted };

    ghost coded = { the_row.coded };

    ghost view = { λ p. unpacked p.packing };
}

impl PackedLifted {
    /// The fact, in little room.
    pub fn new(alloc: Global, fact: Lifted) -> Result<Self, AllocError>
        ensures { IfOk result (λ p. p ≡ fact) }
    {
        let head = fact.head;
        let packing = match fact.terms.as_slice() {
            [] => Packing::None(head),
            [one] => Packing::One(head, *one),
            [one, two] => Packing::Two(head, *one, *two),
            [one, two, three] => Packing::Three(head, *one, *two, *three),
            _ => Packing::More(Box::new(alloc, fact)?),
        };
        Ok(PackedLifted { packing })
    }

    /// The fact.
    pub fn get(&self) -> Lifted
        ensures { result ≡ self.now }
    {
        let mut terms = Terms::none();
        let head = match &self.packing {
            Packing::None(head) => *head,
            Packing::One(head, one) => {
                terms.push(*one);
                *head
            }
            Packing::Two(head, one, two) => {
                terms.push(*one);
                terms.push(*two);
                *head
            }
            Packing::Three(head, one, two, three) => {
                terms.push(*one);
                terms.push(*two);
                terms.push(*three);
                *head
            }
            Packing::More(fact) => {
                terms = fact.terms;
                fact.head
            }
        };
        Lifted { head, terms }
    }
}

impl Duplicate for PackedLifted {
    fn copy(&self, alloc: Global) -> Result<Self, AllocError> {
        PackedLifted::new(alloc, self.get())
    }
}
