//! Where a name stands in a member's text.
use ps_remarks::{Page, Said, Source, part_of};
use ps_script::{Kind, kind_of};
use ps_text::script_lines;
use std::alloc::{AllocError, Global};

/// Whether a line of a member's text has no word.
fn has_no_word(alloc: Global, line: &[u8]) -> Result<bool, AllocError> {
    Ok(matches!(kind_of(alloc, line)?, Kind::Nothing))
}

/// The byte of a line at which its second word stands, if that is this name.
fn second_place(alloc: Global, line: &[u8], name: &[u8]) -> Result<Option<usize>, AllocError> {
    let said = Said::of(alloc, line)?;
    if said.is(1, name) {
        Ok(said.place(1))
    } else {
        Ok(None)
    }
}

/// The byte of a member's text at which its name stands, if it has this name.
fn place_of_name(alloc: Global, text: &[u8], name: &[u8]) -> Result<Option<usize>, AllocError> {
    for span in &script_lines(alloc, text)? {
        let line = part_of(text, span.from, span.to);
        if !has_no_word(alloc, line)? {
            let place = second_place(alloc, line, name)?;
            return Ok(place.map(|place| span.from.saturating_add(place)));
        }
    }
    Ok(None)
}

/// Says where a member's name stands in its file, if it has this name.
pub fn mark_name(
    alloc: Global,
    source: &Source,
    name: &[u8],
    page: &mut Page,
) -> Result<(), AllocError> {
    let text = source.text.as_slice();
    match place_of_name(alloc, text, name)? {
        Some(at) => page.mark(source.file.as_str(), text, at, b"it stands here"),
        None => Ok(()),
    }
}
