//! Numbers in words.
ghost use Rattle.std.specs.Prelude.{◌≡◌, option_map};
ghost use Rattle.ps_words.specs.Words.{is_digit, are_digits, is_number, number_of, number_in, number_or};

/// Whether a byte is a decimal digit.
fn is_digit(byte: u8) -> bool
    ensures { result ≡ is_digit byte }
{
    b'0' <= byte && byte <= b'9'
}

/// Whether each byte is a decimal digit.
fn are_digits(text: &[u8]) -> bool
    ensures { result ≡ are_digits text.now }
{
    text.iter().all(|byte| is_digit(*byte))
}

/// Whether a text is 1 to 9 decimal digits.
fn is_number(text: &[u8]) -> bool
    ensures { result ≡ is_number text.now }
{
    !text.is_empty() && text.len() <= 9 && are_digits(text)
}

/// The number that a text writes, if it is 1 to 9 decimal digits.
fn number_of(text: &str) -> Option<u32>
    ensures { result ≡ number_of text.now }
{
    if !is_number(text.as_bytes()) {
        return None;
    }
    text.parse::<u32>().ok()
}

/// The number that a text writes, if it is one from `low` to `high`.
pub fn number_in(text: &str, low: u32, high: u32) -> Option<u32>
    ensures { result ≡ number_in low high text.now }
{
    let number = number_of(text)?;
    if low <= number && number <= high {
        Some(number)
    } else {
        None
    }
}

/// The number of an option: `usual` where it isn't given, and nothing where its text writes no number from `low` to `high`.
pub fn number_or(text: Option<&str>, usual: u32, low: u32, high: u32) -> Option<u32>
    ensures { result ≡ number_or usual low high (option_map (λ t. t.now) text.entry) }
{
    match text {
        Some(text) => number_in(text, low, high),
        None => Some(usual),
    }
}
