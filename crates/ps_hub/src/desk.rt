//! Desks.
ghost use Rattle.std.specs.Prelude.{◌≡◌, ◌↔◌, IsTrue, length};
ghost use Rattle.ps_hub.specs.Reports.{on};
ghost use Rattle.ps_hub.specs.Looks.{IsLearned, Nothing};
ghost use Rattle.ps_hub.specs.Sending.{MaySend, Sends};

use crate::belt::{Belt, Size};
use crate::look::{Look, NoLook};
use crate::report::Report;
use crate::rule::Push;
use crate::view::View;
use crossbeam_queue::Pass;
use ps_machine::Unit;
use ps_world::Duplicate;
use std::alloc::Global;
use std::marker::Model;
use std::sync::Wait;

/// The most reports of a performer on one request.
const MOST_REPORTS: u32 = 1 << 31;

/// What came of sending a report.
#[derive(Clone, Copy, PartialEq, Eq)]
pub enum Sent {
    /// It was put on the belt.
    Put,
    /// The belt had no room.
    Full,
    /// There was no memory for the report.
    OutOfMemory,
}

/// From where one performer's reports are sent. Contracts see it as its belt, its performer and what was sent.
#[derive(Drop)]
pub struct Desk {
    pub(crate) alloc: Global,
    pub(crate) size: Size,
    pub(crate) by: u32,
    // The request of the last report, and how many reports were sent on it.
    pub(crate) last: u64,
    pub(crate) count: u32,
    pub(crate) pass: Pass<Report, View>,
}

impl Model for Desk {
    ghost use Rattle.crossbeam_queue.specs.Passes.{view as known};
    ghost use Rattle.ps_hub.specs.Belts.{DeskView, desk_code, belt_view};
    ghost use Rattle.ps_hub.specs.Passes.{AtDesk};

    ghost Value = { DeskView };

    ghost coded = { desk_code };

    ghost view = { λ d. record { belt = belt_view d.pass.table_id d.size; by = d.by; sent = (known d.pass).sent } };

    ghost invariant = { λ d. AtDesk d.by d.last d.count d.pass };
}

impl Desk {
    /// Whether a report on this request may be sent: none was sent on a later one, and fewer than 2^31 on this one.
    pub fn may_send(&self, r: u64) -> bool
        ensures { IsTrue result ↔ MaySend self.now.sent r }
    {
        r > self.last || (r == self.last && self.count < MOST_REPORTS)
    }

    /// Sends a report of this unit with the next number. `Full` comes only where the belt had no room left. After `Full` and after
    /// `OutOfMemory` the desk is unchanged.
    pub fn send<R: Wait>(&mut self, rt: &R, belt: &Belt, r: u64, unit: &Unit) -> Sent
        requires belt { self.old.belt ≡ belt.now }
        requires may { MaySend self.old.sent r }
        ensures { Sends Nothing self.old r unit.now result self.new }
    {
        self.send_seen::<NoLook, R>(rt, belt, r, unit)
    }

    /// `send`, for a fact that holds of whatever a belt may hold: where it answers `Full`, the fact was learned of the reports that the
    /// belt held at a step of this call, and these were as many as it has room for.
    pub fn send_seen<M: Look, R: Wait>(&mut self, rt: &R, belt: &Belt, r: u64, unit: &Unit) -> Sent
        requires belt { self.old.belt ≡ belt.now }
        requires may { MaySend self.old.sent r }
        requires look { IsLearned M.fact }
        ensures { Sends M.fact self.old r unit.now result self.new }
    {
        let n = self.next_number(r);
        let Ok(unit) = unit.copy(self.alloc) else {
            return Sent::OutOfMemory;
        };
        let report = Report {
            by: self.by,
            r,
            n,
            unit,
        };
        let Ok(()) = belt.queue.push_as::<Push<M>, R>(rt, &mut self.pass, report) else {
            return Sent::Full;
        };
        self.last = r;
        self.count = n + 1;
        Sent::Put
    }

    // How many reports were sent on this request.
    fn next_number(&self, r: u64) -> u32
        requires { MaySend self.now.sent r }
        ensures { result ≡ length (on r self.now.sent) }
    {
        if r == self.last { self.count } else { 0 }
    }
}
