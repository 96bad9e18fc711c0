//! The words and signs of a picture.
ghost use Rattle.std.specs.Prelude.{◌≡◌, ◌++◌, IfOk, OnOk};
ghost use Rattle.ps_drawing.specs.Signs.{close_text, ending_byte, ending_word, heading_text, label_text, opening_text, sign_byte};

use ps_journal::{Printed, push_after};
use ps_machine::RunKind;
use ps_picture::{Close, Course, Ending, Label, Opening, Sign};
use ps_text::Names;
use std::alloc::{AllocError, Global};

/// The byte of a bar that ends so.
pub fn ending_byte(ending: Ending) -> u8
    ensures { result ≡ ending_byte ending }
{
    match ending {
        Ending::Done => b'=',
        Ending::Failed => b'x',
        Ending::Cancelled => b'/',
        Ending::Open => b'~',
    }
}

/// The byte of a mark.
pub fn sign_byte(sign: Sign) -> u8
    ensures { result ≡ sign_byte sign }
{
    match sign {
        Sign::Request => b'?',
        Sign::Offer => b'o',
        Sign::Pass => b'.',
        Sign::Confirm => b'+',
        Sign::Reject => b'-',
        Sign::Feedback => b'f',
        Sign::Edit => b'e',
        Sign::Refused => b'!',
    }
}

/// The word for how a bar ends.
pub fn ending_word(ending: Ending) -> &'static [u8]
    ensures { result.now ≡ ending_word ending }
{
    match ending {
        Ending::Done => b"done",
        Ending::Failed => b"failed",
        Ending::Cancelled => b"cancelled",
        Ending::Open => b"open",
    }
}

/// Adds the text of an act or of a member's name, after spaces.
fn push_label(names: &Names, label: Label, out: &mut Vec<u8>) -> Result<(), AllocError>
    ensures { OnOk result (out.new.items ≡ out.old.items ++ label_text names.now label) }
{
    match label {
        Label::Act(act) => push_after(b" ", &act, names, out),
        Label::Member(name) => push_after(b"  ", &name, names, out),
    }
}

/// The text of an act or of a member's name, after spaces.
pub fn label_text(alloc: Global, names: &Names, label: Label) -> Result<Vec<u8>, AllocError>
    ensures { IfOk result (λ text. text.items ≡ label_text names.now label) }
{
    let mut text = Vec::new(alloc);
    push_label(names, label, &mut text)?;
    Ok(text)
}

/// The words for what made a plan.
fn opening_text(opening: Opening) -> &'static [u8]
    ensures { result.now ≡ opening_text opening }
{
    match opening {
        Opening::Run(RunKind::Goal) => b"run goal",
        Opening::Run(RunKind::Plan) => b"run plan",
        Opening::Run(RunKind::Action) => b"run action",
        Opening::Replan => b"new plan",
    }
}

/// Adds the words for how a plan ends.
fn push_close(names: &Names, close: Close, out: &mut Vec<u8>) -> Result<(), AllocError>
    ensures { OnOk result (out.new.items ≡ out.old.items ++ close_text close) }
{
    match close {
        Close::Over(how) => push_after(b"over ", &how, names, out),
        Close::NewPlan => out.extend_from_slice(b"planned anew"),
        Close::Cut => out.extend_from_slice(b"not over"),
    }
}

/// Adds the lines of a plan, what made it, and how it ends.
#[tactic(auto, unfolding(crate::specs::Signs::heading_text))]
pub fn push_heading(names: &Names, course: &Course, out: &mut Vec<u8>) -> Result<(), AllocError>
    ensures { OnOk result (out.new.items ≡ out.old.items ++ heading_text course.now) }
{
    push_after(b"lines ", &course.from, names, out)?;
    push_after(b" to ", &course.to, names, out)?;
    out.extend_from_slice(b": ")?;
    out.extend_from_slice(opening_text(course.opening))?;
    out.extend_from_slice(b", ")?;
    push_close(names, course.close, out)
}
