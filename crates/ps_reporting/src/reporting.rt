//! What performers report with.
ghost use Rattle.std.specs.Prelude.{◌≡◌, IfOk};
ghost use Rattle.std.specs.List.{All};

use crate::gate::ReportGate;
use ps_hub::{Belt, Desk, Pile, Post, Tray, posts};
use ps_pool::Gate;
use ps_world::Name;
use std::alloc::{AllocError, Global};
use std::sync::Mutex;

/// The performers of a session with their desks, and the tray, each behind a lock.
#[derive(Drop)]
pub struct Reporting<'b> {
    pub who: Vec<Name>,
    pub posts: Vec<Mutex<Post<'b>>>,
    pub pile: Mutex<Pile<'b>>,
}

impl<'b> Reporting<'b> {
    /// What these performers report with over a belt.
    pub fn new(
        alloc: Global,
        who: Vec<Name>,
        belt: &'b Belt,
        desks: Vec<Desk>,
        tray: Tray,
    ) -> Result<Reporting<'b>, AllocError>
        requires desks { All (λ d. d.belt ≡ belt.now) desks.items }
        requires tray { tray.belt ≡ belt.now }
        ensures { IfOk result (λ reporting. reporting.who.items ≡ who.items) }
    {
        let posts = posts(alloc, belt, desks)?;
        let pile = Mutex::new(Pile::new(tray, belt));
        Ok(Reporting { who, posts, pile })
    }

    /// The gate at which they report, before this one is called.
    pub fn gate<'a, G: Gate>(&'a self, next: &'a G) -> ReportGate<'a, 'b, G> {
        ReportGate {
            who: self.who.as_slice(),
            posts: self.posts.as_slice(),
            pile: &self.pile,
            next,
        }
    }
}
