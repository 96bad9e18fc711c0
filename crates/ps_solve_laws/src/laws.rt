//! Laws of the answers. A call does nothing: its contract is the law.
ghost use Rattle.ps_solve_laws.specs.Frugal.{ReachesAsMany, TellsHowFar};
ghost use Rattle.ps_solve_laws.specs.Laws.{LevelsGoOn, NoPlanIsNone};
ghost use Rattle.ps_solve_laws.specs.Sample.{AreSampleAnswers};

/// A knowledge is in the next level exactly where one step by a possible act leads there from this level, and no fewer steps do.
pub fn levels_go_on()
    ensures { LevelsGoOn }
{}

/// Where it is answered that no plan is good, none is, however long, as long as no action and no instance stands twice.
pub fn no_plan_is_none()
    ensures { NoPlanIsNone }
{}

/// What the definitions answer of a robot and two rooms.
pub fn sample_answers()
    ensures { AreSampleAnswers }
{}

/// A search by levels reaches as many nodes as the definitions reach knowledges.
pub fn reaches_as_many()
    ensures { ReachesAsMany }
{}

/// What a search by levels says of its depth and of what it expands, it says of the answer: it is given at that depth, and fewer nodes
/// are expanded than the budget says, and no more than stand in the levels before.
pub fn tells_how_far()
    ensures { TellsHowFar }
{}
