//! Where two texts differ.
ghost use Rattle.std.specs.Prelude.{◌≡◌};
ghost use Rattle.ps_audit.specs.Findings.{line_of_difference};

/// The line of the first byte at which two texts differ, counted from 1. Where one is a prefix of the other, that is the line in which
/// it ends, or the one after it where its last line is ended.
pub fn line_of_difference(text: &[u8], due: &[u8]) -> usize
    ensures { result ≡ line_of_difference text.now due.now }
{
    let mut line = 1;
    for (byte, other) in text.iter().zip(due.iter()) {
        if byte != other {
            return line;
        }
        if *byte == b'\n' {
            line += 1;
        }
    }
    line
}
