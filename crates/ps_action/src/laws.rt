//! Laws of effects, and of conditions with arguments put in. A call does nothing: its contract is the law.
ghost use Rattle.ps_action.specs.Fine.{NoFaultWhereFine};
ghost use Rattle.ps_action.specs.Grounded.{GroundedHoldsAsWell};
ghost use Rattle.ps_action.specs.Laws.{EffectsAreAtFault, EffectsChange, PlainEffectsStandForThemselves};
ghost use Rattle.ps_action.specs.Samples.{SamplesComeOut};

/// Effects that stand once, with no condition, are in every state what their list stands for.
pub fn plain_effects_stand_for_themselves()
    ensures { PlainEffectsStandForThemselves }
{}

/// Effects that aren't refused change what they say and nothing else: a fact is there where an effect adds it, or where it was
/// there and no effect deletes it, and each new value is what its effect gives in the knowledge before. The lists still rise.
pub fn effects_change_what_they_say()
    ensures { EffectsChange }
{}

/// Effects are refused exactly where one has a fault, and for the first fault of the list.
pub fn refused_effects_are_at_fault()
    ensures { EffectsAreAtFault }
{}

/// Effects without variables and conditions have no fault just where each has none of its own and no other one gives its term a value.
pub fn no_fault_where_fine()
    ensures { NoFaultWhereFine }
{}

/// A condition with arguments put in holds just where the condition does, its first variables standing for the arguments.
pub fn grounded_holds_as_well()
    ensures { GroundedHoldsAsWell }
{}

/// A sample with `forall` and `when`: what its effects stand for, and what is known after them.
pub fn samples_come_out()
    ensures { SamplesComeOut }
{}
