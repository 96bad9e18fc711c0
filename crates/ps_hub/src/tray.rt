//! Trays.
ghost use Rattle.std.specs.Prelude.{◌≡◌, ◌+◌, ◌≤◌, length, IfOk, OnErr, MatchResult, MatchBool};
ghost use Rattle.ps_hub.specs.Reports.{IsNumbered, IsPrefix};
ghost use Rattle.ps_hub.specs.Looks.{IsLearned, Nothing};
ghost use Rattle.ps_hub.specs.Sending.{TakesOne, Drains};

use crate::belt::{Belt, Size};
use crate::look::{Look, NoLook};
use crate::report::Report;
use crate::view::View;
use crossbeam_queue::Pass;
use std::alloc::AllocError;
use std::marker::Model;
use std::sync::Wait;

/// Where the reports are gathered. Contracts see it as its belt and what it has got.
#[derive(Drop)]
pub struct Tray {
    pub(crate) size: Size,
    pub(crate) got: Vec<Report>,
    pub(crate) pass: Pass<Report, View>,
}

impl Model for Tray {
    ghost use Rattle.ps_hub.specs.Belts.{TrayView, tray_code, belt_view};
    ghost use Rattle.ps_hub.specs.Passes.{AtTray};

    ghost Value = { TrayView };

    ghost coded = { tray_code };

    ghost view = { λ t. record { belt = belt_view t.pass.table_id t.size; got = t.got.items } };

    ghost invariant = { λ t. AtTray t.size.performers t.got.items t.pass };
}

impl Tray {
    /// What it has got, in order. Of each performer and request these are the reports 0, 1, 2 and so on.
    pub fn got(&self) -> &[Report]
        ensures got { result.now ≡ self.now.got }
        ensures numbered { IsNumbered self.now.got }
    {
        self.got.as_slice()
    }

    /// Takes at most as many reports from the belt as it has room for, in order, and answers how many; fewer only where the belt was empty
    /// at a step of this call. Where memory runs out, those taken before stand in `got`, and no report is lost.
    pub fn drain<R: Wait>(&mut self, rt: &R, belt: &Belt) -> Result<u32, AllocError>
        requires { self.old.belt ≡ belt.now }
        ensures { Drains Nothing self.old result self.new }
    {
        self.drain_seen::<NoLook, R>(rt, belt)
    }

    /// `drain`, for a fact that holds of whatever a belt may hold: where it answers fewer than the belt has room for, the fact was
    /// learned of no reports, which is what the belt held at a step of this call.
    pub fn drain_seen<M: Look, R: Wait>(&mut self, rt: &R, belt: &Belt) -> Result<u32, AllocError>
        requires belt { self.old.belt ≡ belt.now }
        requires look { IsLearned M.fact }
        ensures { Drains M.fact self.old result self.new }
    {
        for taken in 0..self.size.room {
            if !self.take_one::<M, R>(rt, belt)? {
                return Ok(taken);
            }
        }
        Ok(self.size.room)
    }

    // Takes the next report, if there is one.
    fn take_one<M: Look, R: Wait>(&mut self, rt: &R, belt: &Belt) -> Result<bool, AllocError>
        requires belt { self.old.belt ≡ belt.now }
        requires look { IsLearned M.fact }
        ensures { TakesOne M.fact self.old result self.new }
    {
        belt.pop::<M, R>(rt, &mut self.pass, &mut self.got)
    }
}
