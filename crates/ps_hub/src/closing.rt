//! Belts are emptied and closed.
ghost use Rattle.std.specs.Prelude.{◌≡◌, ◌∷◌, [], map, length, IfOk};
ghost use Rattle.std.specs.List.{All};
ghost use Rattle.crossbeam_queue.specs.Passes.{view as known};
ghost use Rattle.ps_hub.specs.Looks.{IsLearned};
ghost use Rattle.ps_hub.specs.Closing.{Gathers, desk_note};
ghost use Rattle.ps_hub.specs.Passes.{IsTraysPass, PopsInto, EmptiesInto, with_notes};

use crate::belt::Belt;
use crate::desk::Desk;
use crate::look::{Look, NoLook};
use crate::report::Report;
use crate::rule::{Gather, Pop};
use crate::tray::Tray;
use crate::view::View;
use crossbeam_queue::Pass;
use std::alloc::AllocError;
use std::sync::Wait;

impl Belt {
    /// Closes the belt, and gives all reports: they begin with what the tray has got, and have of each performer just what it sent, in
    /// order, each once. It wants every desk of the belt back. Where memory runs out the belt and its reports are gone.
    pub fn close<R: Wait>(
        self,
        rt: &R,
        desks: Vec<Desk>,
        tray: Tray,
    ) -> Result<Vec<Report>, AllocError>
        requires many { length desks.items ≡ self.performers }
        requires desks { All (λ d. d.belt ≡ self) desks.items }
        requires tray { tray.belt ≡ self }
        ensures { IfOk result (λ reports. Gathers self desks.items tray reports.items) }
    {
        let Tray {
            size: _,
            mut got,
            mut pass,
        } = tray;
        self.gather(&mut pass, desks);
        self.empty(rt, &mut pass, &mut got)?;
        Ok(got)
    }

    // Takes the desks in.
    fn gather(&self, pass: &mut Pass<Report, View>, mut desks: Vec<Desk>)
        requires token { IsTraysPass self.now pass.old }
        requires desks { All (λ d. d.belt ≡ self.now) desks.items }
        ensures token { IsTraysPass self.now pass.new }
        ensures notes { known pass.new ≡ with_notes (known pass.old) (map desk_note desks.items) }
    {
        while let Some(next) = desks.pop() {
            self.take_in(pass, next);
        }
        desks.destroy_empty();
    }

    // Takes a desk in.
    fn take_in(&self, pass: &mut Pass<Report, View>, desk: Desk)
        requires token { IsTraysPass self.now pass.old }
        requires desk { desk.belt ≡ self.now }
        ensures token { IsTraysPass self.now pass.new }
        ensures notes { known pass.new ≡ with_notes (known pass.old) (desk_note desk ∷ []) }
    {
        let Desk {
            alloc: _,
            size: _,
            by: _,
            last: _,
            count: _,
            pass: other,
        } = desk;
        self.queue.absorb::<Gather>(pass, other);
    }

    // Takes all reports that are left.
    fn empty<R: Wait>(
        &self,
        rt: &R,
        pass: &mut Pass<Report, View>,
        got: &mut Vec<Report>,
    ) -> Result<(), AllocError>
        requires token { IsTraysPass self.now pass.old }
        requires got { (known pass.old).got ≡ got.old.items }
        ensures { IfOk result (λ _. EmptiesInto self.now pass.old got.old.items pass.new got.new.items) }
    {
        for _ in rt.forever() {
            if !self.pop::<NoLook, R>(rt, pass, got)? {
                return Ok(());
            }
        }
        unreachable!()
    }

    // Takes the oldest report, and says whether there was one.
    pub(crate) fn pop<M: Look, R: Wait>(
        &self,
        rt: &R,
        pass: &mut Pass<Report, View>,
        got: &mut Vec<Report>,
    ) -> Result<bool, AllocError>
        requires token { IsTraysPass self.now pass.old }
        requires got { (known pass.old).got ≡ got.old.items }
        requires look { IsLearned M.fact }
        ensures { PopsInto M.fact self.now pass.old got.old.items result pass.new got.new.items }
    {
        got.reserve(1)?;
        let Some(report) = self.queue.pop_as::<Pop<M>, R>(rt, pass) else {
            return Ok(false);
        };
        got.push_reserved(report);
        Ok(true)
    }
}
