//! How many workers look for a plan at the same time.
ghost use Rattle.std.specs.Prelude.{◌≡◌, ◌+◌, ◌≤◌, true, if◌then◌else◌};

use std::sync::{Mutex, Wait};

/// The most searches that go on at the same time: the answer of one is enough, and another may be asked for what is
/// known since.
const MOST: u8 = 2;

/// How many more may begin.
#[derive(Drop)]
struct Free {
    count: u8,
    ghost few: { count ≤ 2 },
}

impl Free {
    /// All may begin.
    fn all() -> Free {
        Free { count: MOST }
    }

    /// Takes the right to one, if there is any.
    fn take(&mut self) -> bool
        ensures { self.new.count + (if result then 1 else 0) ≡ self.old.count }
    {
        if self.count == 0 {
            return false;
        }
        self.count -= 1;
        true
    }

    /// Takes it back.
    fn put(&mut self) {
        if self.count < MOST {
            self.count += 1;
        }
    }
}

/// The searches of a crew, of which two at most go on at the same time.
#[derive(Drop)]
pub(crate) struct Searches {
    free: Mutex<Free>,
}

impl Searches {
    /// None goes on.
    pub fn new() -> Searches {
        Searches {
            free: Mutex::new(Free::all()),
        }
    }

    /// Whether one more may begin. The worker then owes its `end`.
    pub fn begin<R: Wait>(&self, rt: &R) -> bool {
        self.free.lock(rt).take()
    }

    /// Tells that one has ended.
    pub fn end<R: Wait>(&self, rt: &R) {
        self.free.lock(rt).put();
    }
}
