//! Judging conditions, one list a call.
ghost use Rattle.std.specs.Prelude.{◌≡◌, ℕ, ◌<◌, suc};
ghost use Rattle.ps_action.specs.Truth.{all_true};

use ps_domain::Expert;
use ps_eval::holds_all;
use ps_problem::Problem;
use ps_world::Conds;

/// Something that tells whether conditions hold. It counts how often it is asked.
pub trait Judge {
    ghost use Rattle.ps_world.specs.declared.domains.Domain.{Domain as DomainView};
    ghost use Rattle.ps_world.specs.declared.known.Knowledge.{Knowledge as KnowledgeView};

    ghost domain: { Self → DomainView };

    ghost known: { Self → KnowledgeView };

    ghost count: { Self → ℕ };

    /// Whether each condition of a list holds.
    fn judge(&mut self, conds: &Conds) -> bool
        requires { count self.old < 9223372036854775808 }
        ensures holds { result ≡ all_true (domain self.old) (known self.old) conds.now }
        ensures count { count self.new ≡ suc (count self.old) }
        ensures domain { domain self.new ≡ domain self.old }
        ensures known { known self.new ≡ known self.old };
}

/// The judge over what a problem knows.
#[derive(Drop)]
pub struct Judging<'a> {
    problem: &'a Problem,
    expert: &'a Expert,
    /// How often it was asked.
    pub count: u64,
}

impl<'a> Judging<'a> {
    /// A judge that wasn't asked yet.
    pub fn new(problem: &'a Problem, expert: &'a Expert) -> Judging<'a>
        ensures problem { result.problem.now ≡ problem.now }
        ensures expert { result.expert.now ≡ expert.now }
        ensures count { result.count ≡ 0 }
    {
        Judging {
            problem,
            expert,
            count: 0,
        }
    }
}

impl<'a> Judge for Judging<'a> {
    ghost domain = { λ j. j.expert.now };

    ghost known = { λ j. j.problem.now };

    ghost count = { λ j. j.count };

    fn judge(&mut self, conds: &Conds) -> bool {
        self.count += 1;
        holds_all(self.problem, self.expert, conds)
    }
}
