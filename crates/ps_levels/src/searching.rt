//! The search.
ghost use Rattle.std.specs.Prelude.{◌≡◌, ◌≤◌, ℕ, None, option_map, drop, flat_map, IfOk};
ghost use Rattle.ps_levels.specs.Levels.{Begins, IsExact, IsExpanded, IsFrugal, IsGivenAt, IsLevel, Stays, answer_from, first_good};

use crate::frontier::Frontier;
use std::alloc::AllocError;

/// What comes of a search.
#[derive(Drop)]
pub enum Found<P> {
    /// The path to what is looked for.
    Path(P),
    /// It isn't there.
    Nowhere,
    /// At this depth as many nodes were reached as may be kept, or it is the last depth.
    Spent(u32),
}

/// Expands the nodes that stand from one place to another, which are the last. Where one that they lead to is looked for, the path of the
/// first such one is answered.
fn expand_level<F: Frontier>(
    frontier: &mut F,
    from: usize,
    to: usize,
    most: u32,
) -> Result<Option<F::Path>, AllocError>
    requires sound { F.sound frontier.old most }
    requires level { IsLevel (F.space frontier.old) from to most (F.expanded frontier.old)
        (F.nodes frontier.old) }
    ensures stays { Stays (F.space frontier.old) (F.held frontier.old) (F.space frontier.new)
        (F.held frontier.new) }
    ensures count { F.expanded frontier.new ≤ to }
    ensures found { IfOk result (λ found. found ≡ option_map F.path
        (first_good (F.space frontier.old) (flat_map (F.space frontier.old).moves
        (drop from (F.nodes frontier.old))))) }
    ensures done { IfOk result (λ found. found ≡ None → IsExpanded (F.space frontier.old)
        from to most (F.nodes frontier.old) (F.expanded frontier.new) (F.nodes frontier.new)) }
    ensures sound { IfOk result (λ found. found ≡ None → F.sound frontier.new most) }
{
    for _place in from..to {
        if let Some(path) = frontier.expand(most)? {
            return Ok(Some(path));
        }
    }
    Ok(None)
}

/// Searches level by level, down to a last depth: the path to the first node whose state is looked for, in the order of the levels. Each
/// node is expanded at most once, and at most as many nodes are kept as the budget says.
pub fn search<F: Frontier>(
    frontier: &mut F,
    budget: u32,
    last: u32,
) -> Result<Found<F::Path>, AllocError>
    requires begin { Begins (F.space frontier.old) (F.expanded frontier.old)
        (F.nodes frontier.old) }
    requires sound { F.sound frontier.old budget }
    requires exact { IsExact (F.space frontier.old) }
    requires budget { 1 ≤ budget }
    ensures stays { Stays (F.space frontier.old) (F.held frontier.old) (F.space frontier.new)
        (F.held frontier.new) }
    ensures answer { IfOk result (λ found. found ≡ answer_from (F.space frontier.old) F.path
        budget last 0) }
    ensures frugal { IfOk result (λ found. (depth : ℕ)
        × IsGivenAt (F.space frontier.old) F.path depth found
        × IsFrugal (F.space frontier.old) budget depth (F.expanded frontier.new)) }
{
    if let Some(path) = frontier.first()? {
        return Ok(Found::Path(path));
    }
    let mut done = 0;
    for depth in 0..last {
        let reached = frontier.len();
        if done == reached {
            return Ok(Found::Nowhere);
        }
        if reached >= budget as usize {
            return Ok(Found::Spent(depth));
        }
        if let Some(path) = expand_level(frontier, done, reached, budget)? {
            return Ok(Found::Path(path));
        }
        done = reached;
    }
    if done == frontier.len() {
        return Ok(Found::Nowhere);
    }
    Ok(Found::Spent(last))
}
