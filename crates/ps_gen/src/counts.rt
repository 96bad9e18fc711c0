//! The counts of the entries.
ghost use Rattle.std.specs.Prelude.{◌≡◌, ◌++◌, IfOk, OnOk, string_bytes};
ghost use Rattle.ps_gen.specs.Summary.{is_run, is_start, is_request, is_offer, count_of, count_line, summary_text};

use ps_machine::{Entry, Event};
use std::alloc::{AllocError, Global};

/// Whether an event opens a run.
#[tactic(auto, unfolding(crate::specs::Summary::is_run))]
fn is_run(event: &Event) -> bool
    ensures { result ≡ is_run event.now }
{
    matches!(event, Event::Run { .. })
}

/// Whether an event starts an act.
#[tactic(auto, unfolding(crate::specs::Summary::is_start))]
fn is_start(event: &Event) -> bool
    ensures { result ≡ is_start event.now }
{
    matches!(event, Event::Start(_))
}

/// Whether an event asks for a performer.
#[tactic(auto, unfolding(crate::specs::Summary::is_request))]
fn is_request(event: &Event) -> bool
    ensures { result ≡ is_request event.now }
{
    matches!(event, Event::Request { .. })
}

/// Whether an event is a performer's offer.
#[tactic(auto, unfolding(crate::specs::Summary::is_offer))]
fn is_offer(event: &Event) -> bool
    ensures { result ≡ is_offer event.now }
{
    matches!(event, Event::Offer { .. })
}

/// How many runs were opened.
fn runs(entries: &[Entry]) -> usize
    ensures { result ≡ count_of is_run entries.now }
{
    entries.iter().filter(|entry| is_run(&entry.what)).count()
}

/// How many acts started.
fn starts(entries: &[Entry]) -> usize
    ensures { result ≡ count_of is_start entries.now }
{
    entries.iter().filter(|entry| is_start(&entry.what)).count()
}

/// How often a performer was asked for.
fn requests(entries: &[Entry]) -> usize
    ensures { result ≡ count_of is_request entries.now }
{
    entries
        .iter()
        .filter(|entry| is_request(&entry.what))
        .count()
}

/// How many offers performers made.
fn offers(entries: &[Entry]) -> usize
    ensures { result ≡ count_of is_offer entries.now }
{
    entries.iter().filter(|entry| is_offer(&entry.what)).count()
}

/// Adds a line that gives a count after its name.
fn push_count(name: &str, count: usize, text: &mut String) -> Result<(), AllocError>
    ensures { OnOk result (string_bytes text.new
        ≡ string_bytes text.old ++ count_line name.now count) }
{
    writeln!(text, "{name} {count}")
}

/// The summary of a session with this many carts: their number, and the counts of its entries.
pub fn summary(alloc: Global, carts: u32, entries: &[Entry]) -> Result<Vec<u8>, AllocError>
    ensures { IfOk result (λ text. text.items ≡ summary_text carts entries.now) }
{
    let mut text = String::new(alloc);
    push_count("carts", carts as usize, &mut text)?;
    push_count("runs", runs(entries), &mut text)?;
    push_count("acts", starts(entries), &mut text)?;
    push_count("requests", requests(entries), &mut text)?;
    push_count("offers", offers(entries), &mut text)?;
    push_count("entries", entries.len(), &mut text)?;
    Ok(text.into_bytes())
}
