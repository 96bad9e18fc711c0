//! The states that a search has reached, kept as differences, and one problem that goes from one to the other.
ghost use Rattle.std.specs.Prelude.{◌≡◌, ◌<◌, ◌≤◌, ◌+◌, ◌++◌, ◌∷◌, [], None, false, true, length, map, option_map, take, IfOk, OnOk};
ghost use Rattle.ps_world.specs.CondViews.{cond_tree};
ghost use Rattle.ps_action.specs.Truth.{is_true};
ghost use Rattle.ps_levels.specs.Levels.{first_good, fresh};
ghost use Rattle.ps_problem.specs.Patches.{changed};
ghost use Rattle.ps_expand.specs.Differences.{IsAt, IsBeside, IsLed, Rise, back, difference};
ghost use Rattle.ps_expand.specs.Reached.{path_in, with_difference};
ghost use Rattle.ps_expand.specs.Trees.{AreBeside, IsHere, IsKept, IsTree, child_node, nodes_in, path_of, root_of, tree_space};

use crate::differences::Difference;
use crate::expanding::{Child, Expand};
use crate::reached::Reached;
use ps_action::Act;
use ps_problem::{Change, Problem};
use ps_world::Seq;
use std::alloc::AllocError;

/// A state that was reached: its difference from the start, and the change that leads to it from there.
#[derive(Drop)]
struct Place {
    difference: Difference,
    home: Box<Change>,
}

/// The states that were reached, as their differences from the start, and a problem that stands at one of them.
#[derive(Drop)]
pub struct Store<'a> {
    pub start: &'a Problem,
    pub here: Problem,
    pub reached: Reached,
}

impl<'a> Store<'a> {
    /// The start alone.
    pub fn new(start: &'a Problem) -> Result<Box<Store<'a>>, AllocError>
        ensures start { IfOk result (λ s. s.value.start.now ≡ start.now) }
        ensures nodes { IfOk result (λ s. nodes_in start.now s.value.reached
            ≡ root_of start.now ∷ []) }
        ensures tree { IfOk result (λ s. IsTree start.now s.value.here 0 s.value.reached) }
    {
        // Facts and values say with their lists that they rise.
        let _facts = start.facts()?;
        let _values = start.values()?;
        Store::risen(start)
    }

    /// The start alone, whose facts and values rise.
    fn risen(start: &'a Problem) -> Result<Box<Store<'a>>, AllocError>
        requires { Rise start.now }
        ensures start { IfOk result (λ s. s.value.start.now ≡ start.now) }
        ensures nodes { IfOk result (λ s. nodes_in start.now s.value.reached
            ≡ root_of start.now ∷ []) }
        ensures tree { IfOk result (λ s. IsTree start.now s.value.here 0 s.value.reached) }
    {
        let alloc = start.allocator();
        let reached = Reached::new(alloc, Difference::none(alloc))?;
        let here = start.copy()?;
        let store = Store {
            start,
            here,
            reached,
        };
        Ok(Box::new(alloc, store)?)
    }

    /// Goes to a child of where the problem stands, and answers whether the goal holds there. Where it doesn't, the child is kept, if it is
    /// new and there is room, and the problem goes back through the start by the change that leads from there.
    fn meet<X: Expand>(
        &mut self,
        expander: &X,
        from: u32,
        at: &Place,
        child: &Child,
        most: u32,
    ) -> Result<bool, AllocError>
        requires at { IsAt self.old.start.now self.old.here at.now.difference at.now.home.value }
        requires from { from < length self.old.reached }
        requires beside { IsBeside self.old.start.now (changed self.old.here child.now.change) }
        ensures good { IfOk result (λ good. good ≡ is_true (X.domain expander.now)
            (changed self.old.here child.now.change) (cond_tree (X.goal expander.now))) }
        ensures start { self.new.start.now ≡ self.old.start.now }
        ensures same { IfOk result (λ good. good ≡ true
            → self.new.reached ≡ self.old.reached) }
        ensures kept { IfOk result (λ good. good ≡ false → IsKept most self.old.start.now
            from child.now self.old.here self.old.reached self.new.here self.new.reached) }
    {
        self.here.patch(&child.change)?;
        if expander.met(&self.here) {
            return Ok(true);
        }
        let back = self.keep(from, at, child, most)?;
        self.here.patch(&back)?;
        self.here.patch(&at.home)?;
        Ok(false)
    }

    /// Keeps the state where the problem stands, to which a child leads from a place, if it is new and there is room. Answers the change that
    /// leads from there back to the start.
    fn keep(
        &mut self,
        from: u32,
        at: &Place,
        child: &Child,
        most: u32,
    ) -> Result<Box<Change>, AllocError>
        requires led { IsLed self.old.start.now at.now.difference child.now.change self.old.here }
        requires from { from < length self.old.reached }
        ensures back { IfOk result (λ c. c.value
            ≡ back (difference self.old.start.now self.old.here)) }
        ensures start { self.new.start.now ≡ self.old.start.now }
        ensures here { self.new.here ≡ self.old.here }
        ensures reached { OnOk result (self.new.reached ≡ with_difference most self.old.reached
            (difference self.old.start.now self.old.here) from child.now.act) }
    {
        let difference = at.difference.after(self.start, &self.here, &child.change)?;
        let back = difference.back(self.start.allocator())?;
        self.reached.meet(difference, from, child.act, most)?;
        Ok(back)
    }

    /// Goes on to the state at another place, if there is one, through the start.
    fn go_on(&mut self, at: &Place, to: usize) -> Result<(), AllocError>
        requires { IsAt self.old.start.now self.old.here at.now.difference at.now.home.value }
        ensures start { self.new.start.now ≡ self.old.start.now }
        ensures reached { OnOk result (self.new.reached ≡ self.old.reached) }
        ensures here { OnOk result (IsHere self.old.start.now self.new.here to
            self.old.reached) }
    {
        let alloc = self.start.allocator();
        let Some(difference) = self.reached.get(to) else {
            return Ok(());
        };
        let forth = difference.forth(alloc)?;
        let back = at.difference.back(alloc)?;
        self.here.patch(&back)?;
        self.here.patch(&forth)?;
        Ok(())
    }

    /// The place where the problem stands.
    fn place(&self, from: u32) -> Result<Box<Place>, AllocError>
        requires tree { IsTree self.now.start.now self.now.here from self.now.reached }
        requires from { from < length self.now.reached }
        ensures { IfOk result (λ at. IsAt self.now.start.now self.now.here
            at.value.difference at.value.home.value) }
    {
        let alloc = self.start.allocator();
        let Some(difference) = self.reached.get(from as usize) else {
            unreachable!()
        };
        let home = difference.forth(alloc)?;
        let difference = difference.copy(alloc)?;
        Ok(Box::new(alloc, Place { difference, home })?)
    }

    /// Meets all children of the state at a place, where the problem stands. Where the goal holds at some of them, the acts that lead to the
    /// first are answered. Else the problem goes on to the next state, if there is one.
    pub fn run<X: Expand>(
        &mut self,
        expander: &X,
        from: u32,
        children: &[Child],
        most: u32,
    ) -> Result<Option<Seq<Act>>, AllocError>
        requires tree { IsTree self.old.start.now self.old.here from self.old.reached }
        requires from { from < length self.old.reached }
        requires room { length self.old.reached ≤ most }
        requires beside { AreBeside self.old.start.now self.old.here children.now }
        ensures start { self.new.start.now ≡ self.old.start.now }
        ensures found { IfOk result (λ found. found ≡ option_map path_of
            (first_good (tree_space (X.domain expander.now) self.old.start.now (X.goal expander.now))
            (map (child_node self.old.here (path_in self.old.reached from)) children.now))) }
        ensures nodes { IfOk result (λ found. found ≡ None
            → nodes_in self.old.start.now self.new.reached
            ≡ take most (nodes_in self.old.start.now self.old.reached
            ++ fresh (tree_space (X.domain expander.now) self.old.start.now (X.goal expander.now))
            (nodes_in self.old.start.now self.old.reached)
            (map (child_node self.old.here (path_in self.old.reached from)) children.now))) }
        ensures tree { IfOk result (λ found. found ≡ None
            → IsTree self.old.start.now self.new.here (from + 1) self.new.reached) }
    {
        let at = self.place(from)?;
        self.meet_all(expander, from, &at, children, most)
    }

    /// Meets all children of the state at this place, where the problem stands, and goes on.
    fn meet_all<X: Expand>(
        &mut self,
        expander: &X,
        from: u32,
        at: &Place,
        children: &[Child],
        most: u32,
    ) -> Result<Option<Seq<Act>>, AllocError>
        requires tree { IsTree self.old.start.now self.old.here from self.old.reached }
        requires at { IsAt self.old.start.now self.old.here at.now.difference at.now.home.value }
        requires from { from < length self.old.reached }
        requires room { length self.old.reached ≤ most }
        requires beside { AreBeside self.old.start.now self.old.here children.now }
        ensures start { self.new.start.now ≡ self.old.start.now }
        ensures found { IfOk result (λ found. found ≡ option_map path_of
            (first_good (tree_space (X.domain expander.now) self.old.start.now (X.goal expander.now))
            (map (child_node self.old.here (path_in self.old.reached from)) children.now))) }
        ensures nodes { IfOk result (λ found. found ≡ None
            → nodes_in self.old.start.now self.new.reached
            ≡ take most (nodes_in self.old.start.now self.old.reached
            ++ fresh (tree_space (X.domain expander.now) self.old.start.now (X.goal expander.now))
            (nodes_in self.old.start.now self.old.reached)
            (map (child_node self.old.here (path_in self.old.reached from)) children.now))) }
        ensures tree { IfOk result (λ found. found ≡ None
            → IsTree self.old.start.now self.new.here (from + 1) self.new.reached) }
    {
        let alloc = self.start.allocator();
        for child in children {
            let good = self.meet(expander, from, at, child, most)?;
            if good {
                let path = self.reached.path(alloc, from as usize, child.act)?;
                return Ok(Some(path));
            }
        }
        self.go_on(at, from as usize + 1)?;
        Ok(None)
    }
}
