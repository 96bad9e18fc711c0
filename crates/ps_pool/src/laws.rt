//! Laws of runs. A call does nothing: its contract is the law.
ghost use Rattle.ps_good_plan_laws.specs.Beginnings.{GoInOrder};
ghost use Rattle.ps_good_plan_laws.specs.Segments.{GoWell};
ghost use Rattle.ps_pool.specs.Ordered.{OneEnd};

use ps_board::Board;

/// Turns in order end a run in one way.
pub fn one_end()
    ensures { OneEnd }
{}

/// In the journal of a board, whoever took the turns, the starts and ends of each plan go in an order that its arcs allow,
/// and a plan that was good where it began goes well where no edit among its entries changed what is known: no act fails at
/// its end, no over-all condition breaks, and the run isn't blocked; and where no act fails at all, there is no new plan,
/// and a run that ends with it ends in success.
pub fn plans_go_well(board: &Board)
    ensures well { GoWell board.now.input board.now.entries }
    ensures in_order { GoInOrder board.now.input board.now.entries }
{
    let _history = board.entries();
}
