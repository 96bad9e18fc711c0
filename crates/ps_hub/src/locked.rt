//! A desk and the tray, each with its belt, to stand behind locks.
ghost use Rattle.std.specs.Prelude.{◌≡◌, length, IfOk};
ghost use Rattle.std.specs.List.{All};
ghost use Rattle.ps_hub.specs.Looks.{Nothing};
ghost use Rattle.ps_hub.specs.Reports.{IsNumbered};
ghost use Rattle.ps_hub.specs.Sending.{Drains, SendsIfItMay};

use crate::belt::Belt;
use crate::desk::{Desk, Sent};
use crate::report::Report;
use crate::tray::Tray;
use ps_machine::Unit;
use std::alloc::{AllocError, Global};
use std::sync::{Mutex, Wait};

/// A desk with its belt. The type keeps that they belong together, so that whoever takes the lock may send.
#[derive(Drop)]
pub struct Post<'a> {
    desk: Desk,
    belt: &'a Belt,
    ghost together: { desk.belt ≡ belt.now },
}

impl<'a> Post<'a> {
    pub fn new(desk: Desk, belt: &'a Belt) -> Post<'a>
        requires { desk.belt ≡ belt.now }
        ensures { result.desk ≡ desk }
    {
        Post { desk, belt }
    }

    /// Sends a report of this unit. None where none may be sent on this request.
    pub fn send<R: Wait>(&mut self, rt: &R, r: u64, unit: &Unit) -> Option<Sent>
        ensures { SendsIfItMay self.old.desk r unit.now result self.new.desk }
    {
        if !self.desk.may_send(r) {
            return None;
        }
        Some(self.desk.send(rt, self.belt, r, unit))
    }
}

/// The tray with its belt. The type keeps that they belong together, so that whoever takes the lock may drain.
#[derive(Drop)]
pub struct Pile<'a> {
    tray: Tray,
    belt: &'a Belt,
    ghost together: { tray.belt ≡ belt.now },
}

impl<'a> Pile<'a> {
    pub fn new(tray: Tray, belt: &'a Belt) -> Pile<'a>
        requires { tray.belt ≡ belt.now }
        ensures { result.tray ≡ tray }
    {
        Pile { tray, belt }
    }

    /// Drains the belt, as `Tray::drain` does.
    pub fn drain<R: Wait>(&mut self, rt: &R) -> Result<u32, AllocError>
        ensures { Drains Nothing self.old.tray result self.new.tray }
    {
        self.tray.drain(rt, self.belt)
    }

    /// What the tray has got, in order. Of each performer and request these are the reports 0, 1, 2 and so on.
    pub fn got(&self) -> &[Report]
        ensures got { result.now ≡ self.now.tray.got }
        ensures numbered { IsNumbered result.now }
    {
        self.tray.got()
    }
}

/// The desks in order, each with its belt behind a lock.
pub fn posts<'a>(
    alloc: Global,
    belt: &'a Belt,
    desks: Vec<Desk>,
) -> Result<Vec<Mutex<Post<'a>>>, AllocError>
    requires { All (λ d. d.belt ≡ belt.now) desks.items }
    ensures { IfOk result (λ posts. length posts.items ≡ length desks.items) }
{
    let mut posts = Vec::with_capacity(alloc, desks.len())?;
    for desk in desks {
        posts.push(Mutex::new(Post::new(desk, belt)))?;
    }
    Ok(posts)
}
