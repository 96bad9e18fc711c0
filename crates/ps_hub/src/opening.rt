//! Belts are opened.
ghost use Rattle.std.specs.Prelude.{◌≡◌, ◌+◌, ◌<◌, ◌≤◌, [], map, vec_capacity, IfOk};
ghost use Rattle.std.specs.List.{All, range_with_len};
ghost use Rattle.ps_hub.specs.Belts.{new_desk, new_tray};
ghost use Rattle.ps_hub.specs.Passes.{IsDealing};

use crate::belt::{Belt, Size};
use crate::desk::Desk;
use crate::report::Report;
use crate::rule::Deal;
use crate::tray::Tray;
use crate::view::View;
use crossbeam_queue::{Pass, RuledArrayQueue};
use std::alloc::{AllocError, Global};

impl Belt {
    /// A belt for 1 to 64 performers with room for 1 to 4,096 reports, a desk for each performer in order, and the tray. Nothing was sent
    /// yet.
    pub fn open(
        alloc: Global,
        performers: u32,
        room: u32,
    ) -> Result<(Belt, Vec<Desk>, Tray), AllocError>
        requires performers { (1 ≤ performers) × (performers ≤ 64) }
        requires room { (1 ≤ room) × (room ≤ 4096) }
        ensures belt { IfOk result (λ r. (r.0.performers ≡ performers) × (r.0.room ≡ room)) }
        ensures desks { IfOk result (λ r. r.1.items ≡ map (new_desk r.0) (range_with_len 0 performers)) }
        ensures of_belt { IfOk result (λ r. All (λ d. d.belt ≡ r.0) r.1.items) }
        ensures tray { IfOk result (λ r. r.2 ≡ new_tray r.0) }
    {
        let size = Size { performers, room };
        let mut desks = Vec::with_capacity(alloc, performers as usize)?;
        let (queue, mut pass) = RuledArrayQueue::ruled(alloc, room as usize)?;
        let belt = Belt { queue, size };
        belt.deal(alloc, &mut pass, &mut desks);
        let tray = Tray {
            size,
            got: Vec::new(alloc),
            pass,
        };
        Ok((belt, desks, tray))
    }

    // Deals the desks.
    fn deal(&self, alloc: Global, pass: &mut Pass<Report, View>, desks: &mut Vec<Desk>)
        requires token { IsDealing self.now 0 pass.old }
        requires room { (desks.old.items ≡ []) × (self.now.performers ≤ vec_capacity desks.old) }
        ensures token { IsDealing self.now self.now.performers pass.new }
        ensures desks { desks.new.items ≡ map (new_desk self.now) (range_with_len 0 self.now.performers) }
    {
        for by in 0..self.size.performers {
            let desk = self.deal_one(alloc, pass, by);
            desks.push_reserved(desk);
        }
    }

    // Deals the desk of this performer.
    fn deal_one(&self, alloc: Global, pass: &mut Pass<Report, View>, by: u32) -> Desk
        requires token { IsDealing self.now by pass.old }
        ensures token { IsDealing self.now (by + 1) pass.new }
        ensures desk { result ≡ new_desk self.now by }
    {
        let pass = self.queue.another::<Deal>(pass);
        Desk {
            alloc,
            size: self.size,
            by,
            last: 0,
            count: 0,
            pass,
        }
    }
}
