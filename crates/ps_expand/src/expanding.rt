//! What a search asks of what expands for it.
ghost use Rattle.std.specs.Prelude.{◌≡◌, ◌<◌, ◌≤◌, ℕ, suc, List, length, IfOk};
ghost use Rattle.ps_world.specs.CondViews.{cond_tree};
ghost use Rattle.ps_action.specs.Grounding.{all_ground, most_ground};
ghost use Rattle.ps_action.specs.Truth.{is_true};
ghost use Rattle.ps_expand.specs.Children.{AreChildren};

use ps_action::Act;
use ps_problem::{Change, Problem};
use std::alloc::AllocError;

/// What a step leads to: the act, and what it changes.
#[derive(Drop)]
pub struct Child {
    pub act: Act,
    pub change: Change,
}

/// Something that expands what is known, for a domain, some instances and a goal, and counts how often it does.
pub trait Expand {
    ghost use Rattle.ps_world.specs.declared.conditions.Cond.{Cond as CondView};
    ghost use Rattle.ps_world.specs.declared.domains.Domain.{Domain as DomainView};
    ghost use Rattle.ps_world.specs.declared.names.Name.{Name as NameView};

    ghost domain: { Self → DomainView };

    ghost instances: { Self → List (NameView × NameView) };

    ghost goal: { Self → CondView };

    ghost count: { Self → ℕ };

    /// One child for each act whose step succeeds, in the order of the acts. It counts once, also where memory runs out.
    fn expand(&mut self, problem: &Problem) -> Result<Vec<Child>, AllocError>
        requires instances { problem.now.instances ≡ instances self.old }
        requires count { count self.old < 9223372036854775808 }
        ensures children { IfOk result (λ cs.
            AreChildren (domain self.old) problem.now cs.items) }
        ensures count { count self.new ≡ suc (count self.old) }
        ensures domain { domain self.new ≡ domain self.old }
        ensures instances { instances self.new ≡ instances self.old }
        ensures goal { goal self.new ≡ goal self.old };

    /// Whether the goal holds.
    fn met(&self, problem: &Problem) -> bool
        ensures { result ≡ is_true (domain self.now) problem.now (cond_tree (goal self.now)) };

    /// There aren't too many ground actions.
    ghost few: { (x : Self) → length (all_ground (domain x) (instances x)) ≤ most_ground };
}
