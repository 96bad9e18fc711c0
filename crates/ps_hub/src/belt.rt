//! Belts.
use crate::report::Report;
use crate::rule::Carrying;
use crate::view::View;
use crossbeam_queue::RuledArrayQueue;
use std::marker::Model;

/// How many performers send over a belt, and how many reports it has room for.
#[derive(Clone, Copy)]
pub struct Size {
    pub performers: u32,
    pub room: u32,
}

/// A queue of reports, on which desks put them and from which the tray takes them. Contracts see it as what tells it from other belts,
/// how many performers send over it and how many reports it has room for.
#[derive(Drop)]
pub struct Belt {
    pub(crate) queue: RuledArrayQueue<Report, View, Carrying>,
    pub(crate) size: Size,
}

impl Model for Belt {
    ghost use Rattle.std.specs.Prelude.{◌≡◌};
    ghost use Rattle.crossbeam_queue.specs.Passes.{ruled_capacity};
    ghost use Rattle.ps_hub.specs.Belts.{BeltView, belt_code, belt_view};

    ghost Value = { BeltView };

    ghost coded = { belt_code };

    ghost view = { λ b. belt_view b.queue.table.shared.table_id b.size };

    ghost invariant = { λ b. ruled_capacity b.queue ≡ b.size.room };
}
