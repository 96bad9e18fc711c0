//! Laws of trees. A call does nothing: its contract is the law.
ghost use Rattle.ps_tree.specs.Laws.{AllDoneIsSuccess, OneDoneHasThreeLines, UnharmedIsNoFailure};

/// Where no act failed or was cancelled, the root is no failure.
pub fn unharmed_is_no_failure()
    ensures { UnharmedIsNoFailure }
{}

/// Where each act is done, the root is a success.
pub fn all_done_is_success()
    ensures { AllDoneIsSuccess }
{}

/// What the definitions write of one act that is done and waits for none.
pub fn one_done_has_three_lines()
    ensures { OneDoneHasThreeLines }
{}
