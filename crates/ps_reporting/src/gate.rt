//! The gate that reports.
use ps_board::Grant;
use ps_hub::{Pile, Post, Sent};
use ps_pool::Gate;
use ps_world::Name;
use std::sync::{Mutex, Wait};

/// Reports each unit, and then calls another gate.
#[derive(Drop)]
pub struct ReportGate<'a, 'b, G: Gate> {
    /// The performers' names in order, and of each its desk.
    pub who: &'a [Name],
    pub posts: &'a [Mutex<Post<'b>>],
    pub pile: &'a Mutex<Pile<'b>>,
    pub next: &'a G,
}

impl<'a, 'b, G: Gate> Gate for ReportGate<'a, 'b, G> {
    fn unit<R: Wait>(&self, rt: &R, grant: &Grant) {
        let place = self.who.iter().position(|name| *name == grant.by);
        if let Some(place) = place
            && let Some(post) = self.posts.get(place)
        {
            report(rt, post, self.pile, grant);
        }
        self.next.unit(rt, grant);
    }
}

/// Sends the report of a unit, and drains the tray as long as the belt is full. Where none may be sent on this request,
/// or memory runs out, the report is given up.
fn report<R: Wait>(rt: &R, post: &Mutex<Post>, pile: &Mutex<Pile>, grant: &Grant) {
    let mut post = post.lock(rt);
    for _ in rt.forever() {
        let sent = post.send(rt, grant.r, grant.unit.get());
        let Some(Sent::Full) = sent else {
            return;
        };
        if pile.lock(rt).drain(rt).is_err() {
            return;
        }
    }
}
