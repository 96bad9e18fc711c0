//! Laws of what ground actions read and change. A call does nothing: its contract is the law.
ghost use Rattle.ps_arcs.specs.Beginnings.{BeginningsGoWell, TruthReadsWhatIsTold};
ghost use Rattle.ps_arcs.specs.Commuting.{JudgedIsGood, JudgedIsGrounded, OrdersGoWell};
ghost use Rattle.ps_arcs.specs.Laws.{ArcsAreListed, ConditionsReadThings, EffectsLeaveOthers, EffectsReadThings, NoArcLeavesAlone};

/// The conditions of a ground action hold by the things and places that it reads alone: where two know the same instances and agree on
/// those, each of its three lists of conditions holds in both or in neither.
pub fn conditions_read_things()
    ensures { ConditionsReadThings }
{}

/// The effects of a ground action act by the things and places that it reads or changes alone: where two know the same instances and
/// agree on those, each of its two lists of effects is refused in both, for the same cause, or in neither, and then the outcomes
/// agree on all that it changes, and on all on which they agreed before.
pub fn effects_read_things()
    ensures { EffectsReadThings }
{}

/// Effects of a ground action that aren't refused change nothing but what meets what it changes: every other fact and value stays as it
/// was, and so do the instances and the goal.
pub fn effects_leave_others()
    ensures { EffectsLeaveOthers }
{}

/// Where there is no arc from one ground action to a later one, no fact or value that what one of the two changes meets is met by what the
/// other reads or changes.
pub fn no_arc_leaves_alone()
    ensures { NoArcLeavesAlone }
{}

/// The list of arcs has exactly the pairs of places between which there is an arc.
pub fn arcs_are_listed()
    ensures { ArcsAreListed }
{}

/// Acts whose plan is judged good have ground actions.
pub fn judged_is_grounded()
    ensures { JudgedIsGrounded }
{}

/// The ground actions of acts whose plan is judged good are a good plan, which comes to the same.
pub fn judged_is_good()
    ensures { JudgedIsGood }
{}

/// From where ground actions are a good plan, taken one after another, each order of their starts and ends that their arcs allow goes
/// well, and comes to what the plan comes to.
pub fn orders_go_well()
    ensures { OrdersGoWell }
{}

/// From where ground actions are a good plan, wherever starts and ends that their arcs allow lead to, each one that is ready can start,
/// each one that runs has its over-all condition true and can end, and where all have ended, all is known that the plan comes to.
pub fn beginnings_go_well()
    ensures { BeginningsGoWell }
{}

/// Where two states tell the same, the same conditions hold.
pub fn truth_reads_what_is_told()
    ensures { TruthReadsWhatIsTold }
{}
