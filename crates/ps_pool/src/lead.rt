//! The lead of a crew.
ghost use Rattle.std.specs.Prelude.{◌≡◌, ◌||◌, nat_le, true};

use std::sync::{Condvar, Mutex, Wait};

/// How it stands with the lead. Where nobody leads and there is no news, workers sleep until somebody who has stepped
/// aside comes back; so there is somebody then.
#[derive(Drop)]
struct Leading {
    is_led: bool,
    /// Something may be to be done that no leader has seen in a whole round.
    has_news: bool,
    /// So many have stepped aside and aren't back.
    aside: u32,
    ghost awaited: { (is_led || has_news || nat_le 1 aside) ≡ true },
}

impl Leading {
    fn new() -> Leading {
        Leading {
            is_led: false,
            has_news: true,
            aside: 0,
        }
    }

    /// Whether a worker may lead, with a reason to.
    fn is_open(&self) -> bool {
        !self.is_led && self.has_news
    }

    fn take(&mut self) {
        self.is_led = true;
        self.has_news = false;
    }

    fn leave(&mut self) {
        self.is_led = false;
        self.has_news = true;
    }

    fn step_aside(&mut self) {
        self.aside = self.aside.saturating_add(1);
        self.leave();
    }

    fn come_back(&mut self) {
        self.aside = self.aside.saturating_sub(1);
        self.has_news = true;
    }

    /// Gives the lead up after a round in vain, if somebody is aside and nobody has come back since the round before.
    fn rest(&mut self) -> bool {
        let rests = !self.has_news && self.aside > 0;
        self.is_led = !rests;
        self.has_news = false;
        rests
    }
}

/// The lead, which one worker has at a time: it does its rounds while the others that were started sleep, and gives
/// the lead up while it does a unit of work or asks the solver. Where a round was in vain it sleeps too, until one of
/// those is handed in. So workers don't take the turn from each other where one alone can do all that is to be done.
/// No contract says who leads, or that a worker gets the lead: what the journal promises rests on the turn alone.
///
/// Nothing is lost of what wakes a worker. Who gives the lead up with news wakes one that sleeps. Who comes back has
/// handed in before, and goes for the lead itself: it gets it, or the one who leads sees the news before it may rest.
/// And where all rest, somebody is aside, who comes back.
#[derive(Drop)]
pub(crate) struct Lead {
    leading: Mutex<Leading>,
    opened: Condvar,
}

impl Lead {
    /// A lead that nobody has.
    pub fn new() -> Lead {
        Lead {
            leading: Mutex::new(Leading::new()),
            opened: Condvar::new(),
        }
    }

    /// Sleeps until nobody leads and something may be to be done, and leads.
    pub fn take<R: Wait>(&self, rt: &R) {
        let mut leading = self
            .opened
            .wait_while(rt, self.leading.lock(rt), |leading| !leading.is_open());
        leading.take();
    }

    /// Gives the lead up to do something aside, and wakes one that sleeps.
    pub fn step_aside<R: Wait>(&self, rt: &R) {
        self.leading.lock(rt).step_aside();
        self.opened.notify_one();
    }

    /// Gives the lead up for good, and wakes one that sleeps.
    pub fn leave<R: Wait>(&self, rt: &R) {
        self.leading.lock(rt).leave();
        self.opened.notify_one();
    }

    /// Tells that something was handed in. The worker then takes the lead.
    pub fn come_back<R: Wait>(&self, rt: &R) {
        self.leading.lock(rt).come_back();
    }

    /// After a round in vain, sleeps until somebody who is aside has come back, if somebody is, and leads again.
    pub fn rest<R: Wait>(&self, rt: &R) {
        let rests = self.leading.lock(rt).rest();
        if rests {
            self.take(rt);
        }
    }
}
