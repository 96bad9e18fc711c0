//! What expands a problem.
ghost use Rattle.std.specs.Prelude.{◌≡◌, Some, IfOk, IsSome};
ghost use Rattle.ps_world.specs.Failures.{Gives};
ghost use Rattle.ps_action.specs.Grounding.{all_ground};
ghost use Rattle.ps_domain.specs.Grounding.{listed};

use crate::expanding::{Child, Expand};
use crate::listing::Listing;
use ps_action::is_true;
use ps_domain::{Expert, GroundAllRefusal};
use ps_problem::Problem;
use ps_world::Failure;
use std::alloc::AllocError;

/// Expands any problem with the instances of the one that it is made for, by trying each ground action.
#[derive(Drop)]
pub struct Expander<'a> {
    listing: Listing<'a>,
    count: u64,
}

impl<'a> Expander<'a> {
    /// For the domain, the instances and the goal of a problem. `TooMany` exactly where there are more than 50,000 ground actions.
    pub fn new(
        expert: &'a Expert,
        problem: &Problem,
    ) -> Result<Expander<'a>, Failure<GroundAllRefusal>>
        requires { IsSome problem.now.goal }
        ensures gives { Gives (λ _. all_ground expert.now problem.now.instances) result
            (listed expert.now problem.now.instances) }
        ensures domain { IfOk result (λ x. x.listing.expert.now ≡ expert.now) }
        ensures instances { IfOk result (λ x. x.listing.instances.items ≡ problem.now.instances) }
        ensures goal { IfOk result (λ x. problem.now.goal ≡ Some x.listing.goal) }
        ensures count { IfOk result (λ x. x.count ≡ 0) }
    {
        let listing = Listing::of(expert, problem)?;
        Ok(Expander { listing, count: 0 })
    }

    /// How often it has expanded.
    pub fn count(&self) -> u64
        ensures { result ≡ self.now.count }
    {
        self.count
    }
}

impl<'a> Expand for Expander<'a> {
    ghost domain = { λ x. x.listing.expert.now };

    ghost instances = { λ x. x.listing.instances.items };

    ghost goal = { λ x. x.listing.goal };

    ghost count = { λ x. x.count };

    fn expand(&mut self, problem: &Problem) -> Result<Vec<Child>, AllocError> {
        self.count += 1;
        self.listing.children(problem)
    }

    fn met(&self, problem: &Problem) -> bool {
        is_true(problem, self.listing.expert, &self.listing.goal)
    }

    ghost few = { λ x. x.listing.listed.few };
}
