//! A tree of three acts, of which two wait for the first.
ghost use Rattle.std.specs.Prelude.{◌≡◌, length, IfOk};

use ps_action::{ActState, Arcs, Status};
use ps_tree::{ActView, Tree};
use std::alloc::{AllocError, Global};
use std::process::Abort;
use std::test::Fail;

/// The states of three acts.
#[derive(Drop)]
struct Three {
    states: [ActState; 3],
}

impl ActView for Three {
    ghost states = { λ view. view.states };

    fn state(&self, act: u32) -> ActState {
        self.states[act as usize]
    }
}

/// The first act before both others.
fn forked(alloc: Global) -> Result<Tree, AllocError>
    ensures { IfOk result (λ tree. length tree.waits ≡ 3) }
{
    let mut arcs = Arcs::new(alloc, 3)?;
    arcs.add(0, 2)?;
    arcs.add(0, 1)?;
    Tree::build(alloc, &arcs)
}

/// The status after a tick with these states, and which acts are ready then.
fn ticked(tree: &mut Tree, states: [ActState; 3]) -> (Status, [bool; 3])
    requires { length tree.old.waits ≡ 3 }
    ensures { length tree.new.waits ≡ 3 }
{
    let status = tree.tick(&Three { states });
    (status, [tree.ready(0), tree.ready(1), tree.ready(2)])
}

const AT_FIRST: &[u8] = b"parallel running
  sequence idle
    act 0 idle
  sequence running
    wait 0 running
    act 1 idle
  sequence running
    wait 0 running
    act 2 idle
";

const AFTER_THE_FIRST: &[u8] = b"parallel running
  sequence success
    act 0 success
  sequence running
    wait 0 success
    act 1 running
  sequence idle
    wait 0 success
    act 2 idle
";

/// That a tree has this text.
fn is_written(rt: &impl Abort, tree: &Tree, want: &[u8]) -> Result<(), Fail> {
    let text = tree.text()?;
    assert!(rt; text.as_slice() == want);
    Ok(())
}

fn writes_so(rt: &impl Abort, tree: &mut Tree) -> Result<(), Fail>
    requires { length tree.old.waits ≡ 3 }
{
    is_written(rt, tree, AT_FIRST)?;
    ticked(tree, [ActState::Done, ActState::Active, ActState::Waiting]);
    is_written(rt, tree, AFTER_THE_FIRST)
}

#[test]
fn writes_each_node(rt: HostRuntime) -> Result<(), Fail> {
    let mut tree = forked(rt.alloc())?;
    writes_so(&rt, &mut tree)
}

/// States, the root's status with them, and which acts are ready then.
const TICKS: [([ActState; 3], Status, [bool; 3]); 6] = [
    (
        [ActState::Waiting; 3],
        Status::Running,
        [true, false, false],
    ),
    (
        [ActState::Active, ActState::Waiting, ActState::Waiting],
        Status::Running,
        [false; 3],
    ),
    (
        [ActState::Done, ActState::Active, ActState::Waiting],
        Status::Running,
        [false, false, true],
    ),
    (
        [ActState::Done, ActState::Waiting, ActState::Failed],
        Status::Failure,
        [false, true, false],
    ),
    (
        [ActState::Cancelled, ActState::Waiting, ActState::Waiting],
        Status::Failure,
        [false; 3],
    ),
    ([ActState::Done; 3], Status::Success, [false; 3]),
];

fn ticks_so(rt: &impl Abort, tree: &mut Tree)
    requires { length tree.old.waits ≡ 3 }
{
    for (at, (states, status, ready)) in TICKS.iter().enumerate() {
        assert_eq!(rt; ticked(tree, *states), (*status, *ready), "at {at}");
    }
}

#[test]
fn tells_status_and_what_is_ready(rt: HostRuntime) -> Result<(), Fail> {
    let mut tree = forked(rt.alloc())?;
    ticks_so(&rt, &mut tree);
    Ok(())
}
