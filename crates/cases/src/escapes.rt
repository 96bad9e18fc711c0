//! Content with escapes: `\\` for a backslash and `\xHH` for a byte.

use super::case::BadLine;

/// Where in an escape a text stands.
#[derive(Clone, Copy)]
enum Place {
    Plain,
    Slash,
    High,
    Low(u8),
}

/// The value of a hexadecimal digit.
fn digit(byte: u8) -> Option<u8> {
    let value = (byte as char).to_digit(16)?;
    u8::try_from(value).ok()
}

/// The place after a byte, and the byte that it ends, if it ends one. Only printable ASCII stands for itself.
fn step(place: Place, byte: u8) -> Option<(Place, Option<u8>)> {
    match place {
        Place::Plain if byte == b'\\' => Some((Place::Slash, None)),
        Place::Plain if (b' '..=b'~').contains(&byte) => Some((Place::Plain, Some(byte))),
        Place::Plain => None,
        Place::Slash if byte == b'\\' => Some((Place::Plain, Some(byte))),
        Place::Slash if byte == b'x' => Some((Place::High, None)),
        Place::Slash => None,
        Place::High => Some((Place::Low(digit(byte)?), None)),
        Place::Low(high) => Some((Place::Plain, Some((high << 4) | digit(byte)?))),
    }
}

/// Adds the bytes that a text stands for.
pub fn push_bytes(bytes: &mut Vec<u8>, text: &str) -> Result<(), BadLine> {
    let mut place = Place::Plain;
    for byte in text.as_bytes() {
        let (next, ended) = step(place, *byte).ok_or(BadLine::Form)?;
        if let Some(ended) = ended {
            bytes.push(ended)?;
        }
        place = next;
    }
    match place {
        Place::Plain => Ok(()),
        _ => Err(BadLine::Form),
    }
}
