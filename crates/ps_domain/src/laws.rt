//! Laws of ground actions. A call does nothing: its contract is the law.
ghost use Rattle.ps_domain.specs.Laws.{GroundActionsAreAll};

/// Where no action and no instance stands twice, the list of all ground actions has exactly those of the acts that can be
/// grounded, each once, by the places of their actions in the domain's text and then by their arguments.
pub fn ground_actions_are_all()
    ensures { GroundActionsAreAll }
{}
