//! Numbers as texts.
ghost use Rattle.std.specs.Prelude.{◌≡◌, ◌+◌, ◌^◌, ◌<◌, ◌≤◌, ◌==◌, ◌++◌, decimal, drop, length, min, position, take, IfOk, IsTrue};
ghost use Rattle.std.specs.Char.{is_ascii_digit};
ghost use Rattle.std.specs.List.{list_all, position_or_len};
ghost use Rattle.std.specs.Str.Parse.{digits_value_after};
ghost use Rattle.ps_world.specs.Numbers.{IsCount, decimals_text, magnitude_text, number_text};
ghost use Rattle.ps_text.specs.Decimals.{PrintedNumbersAreRead, are_digits, count_of, first_decimals, fraction_part, is_coarse, is_plain, is_point, magnitude_of, number_of, whole_part};

use ps_world::{MOST_THOUSANDTHS, Num};

/// The most bytes of a printed number.
pub const NUMBER_BYTES: usize = 24;

/// A count that stands for each one past the greatest.
const PAST: u64 = MOST_THOUSANDTHS + 1;

/// Why a text is no number.
#[derive(Clone, Copy, PartialEq, Eq, Debug)]
pub enum NumRefusal {
    /// After an optional `-`, the text isn't digits, or digits, `.` and digits.
    NotNumber,
    /// A digit past the third decimal isn't 0.
    TooFine,
    /// The absolute value passes 10^12, which is 10^15 thousandths.
    TooLarge,
}

fn has_only_digits(text: &[u8]) -> bool
    ensures { result ≡ list_all is_ascii_digit text.now }
{
    text.iter().all(|b| b.is_ascii_digit())
}

fn are_digits(text: &[u8]) -> bool
    ensures { result ≡ are_digits text.now }
{
    !text.is_empty() && has_only_digits(text)
}

fn are_zeros(text: &[u8]) -> bool
    ensures { result ≡ list_all (λ d. d == 48) text.now }
{
    text.iter().all(|d| *d == b'0')
}

fn first_point(text: &[u8]) -> Option<usize>
    ensures { result ≡ position is_point text.now }
{
    text.iter().position(|b| *b == b'.')
}

/// The place of the first `.`, or the text's length.
fn point(text: &[u8]) -> usize
    ensures place { result ≡ position_or_len is_point text.now }
    ensures within { result ≤ length text.now }
{
    first_point(text).unwrap_or(text.len())
}

fn whole_part(text: &[u8]) -> &[u8]
    ensures { result.now ≡ whole_part text.now }
{
    &text[..point(text)]
}

fn fraction_part(text: &[u8]) -> &[u8]
    ensures { result.now ≡ fraction_part text.now }
{
    let from = point(text);
    if from < text.len() {
        &text[from + 1..]
    } else {
        &text[from..]
    }
}

fn is_plain(text: &[u8]) -> bool
    ensures { result ≡ is_plain text.now }
{
    let whole = whole_part(text);
    are_digits(whole) && (whole.len() == text.len() || are_digits(fraction_part(text)))
}

fn is_coarse(text: &[u8]) -> bool
    ensures { result ≡ is_coarse text.now }
{
    let fraction = fraction_part(text);
    fraction.len() <= 3 || are_zeros(&fraction[3..])
}

fn first_decimals(fraction: &[u8]) -> [u8; 3]
    ensures { result ≡ first_decimals fraction.now }
{
    let count = fraction.len().min(3);
    let mut decimals = [b'0'; 3];
    decimals[..count].copy_from_slice(&fraction[..count]);
    decimals
}

/// The number that digits write after those of `start`, or 10^15 + 1 where it passes 10^15.
fn value_after(start: u64, digits: &[u8]) -> u64
    requires start { start ≤ PAST }
    requires digits { IsTrue (list_all is_ascii_digit digits.now) }
    ensures { result ≡ min (digits_value_after 10 start digits.now) PAST }
{
    let mut value = start;
    for digit in digits {
        value = (value * 10 + u64::from(digit - b'0')).min(PAST);
    }
    value
}

fn count_of(text: &[u8]) -> u64
    requires { IsTrue (is_plain text.now) }
    ensures { result ≡ min (count_of text.now) PAST }
{
    let whole = value_after(0, whole_part(text));
    value_after(whole, &first_decimals(fraction_part(text)))
}

/// The count of thousandths of a text without a sign.
fn magnitude(text: &[u8]) -> Result<u64, NumRefusal>
    ensures value { result ≡ magnitude_of text.now }
    ensures small { IfOk result (λ n. n ≤ 10 ^ 15) }
{
    if !is_plain(text) {
        return Err(NumRefusal::NotNumber);
    }
    if !is_coarse(text) {
        return Err(NumRefusal::TooFine);
    }
    let count = count_of(text);
    if count > MOST_THOUSANDTHS {
        return Err(NumRefusal::TooLarge);
    }
    Ok(count)
}

/// The count of thousandths of a text.
fn signed_count(bytes: &[u8]) -> Result<i64, NumRefusal>
    ensures value { result ≡ number_of bytes.now }
    ensures range { IfOk result IsCount }
{
    match bytes {
        [b'-', rest @ ..] => Ok(-(magnitude(rest)? as i64)),
        _ => Ok(magnitude(bytes)? as i64),
    }
}

/// The number that a text is. It refuses `NotNumber`, else `TooFine`, else `TooLarge`. There may be any number of digits.
pub fn read_number(bytes: &[u8]) -> Result<Num, NumRefusal>
    ensures { result ≡ number_of bytes.now }
{
    Num::new(signed_count(bytes)?).ok_or(NumRefusal::TooLarge)
}

/// Writes the digits of a number before the place `end`, and gives the place of the first.
fn write_digits(n: u64, text: &mut [u8], end: usize) -> usize
    requires within { end ≤ length text.old }
    requires room { length (decimal n) ≤ end }
    ensures place { result + length (decimal n) ≡ end }
    ensures digits { drop result text.new ≡ decimal n ++ drop end text.old }
{
    let mut rest = n;
    let mut at = end;
    while rest >= 10 {
        at -= 1;
        text[at] = b'0' + (rest % 10) as u8;
        rest /= 10;
    }
    at -= 1;
    text[at] = b'0' + rest as u8;
    at
}

fn decimals_text(count: u64) -> [u8; 4]
    ensures { result ≡ decimals_text count }
{
    let hundreds = (count / 100 % 10) as u8;
    let tens = (count / 10 % 10) as u8;
    [
        b'.',
        b'0' + hundreds,
        b'0' + tens,
        b'0' + (count % 10) as u8,
    ]
}

/// Writes a count of thousandths at the end of 24 bytes, and gives the place of its first byte.
fn write_magnitude(count: u64, text: &mut [u8; NUMBER_BYTES]) -> usize
    requires { count ≤ 10 ^ 15 }
    ensures room { 0 < result }
    ensures within { result ≤ NUMBER_BYTES }
    ensures text { drop result text.new ≡ magnitude_text count }
{
    text[20..].copy_from_slice(&decimals_text(count));
    write_digits(count / 1000, text, 20)
}

/// Writes the text of a number at the end of 24 bytes, and gives the place of its first byte.
fn write_number(n: Num, text: &mut [u8; NUMBER_BYTES]) -> usize
    ensures within { result ≤ NUMBER_BYTES }
    ensures text { drop result text.new ≡ number_text n }
{
    let milli = n.milli();
    let first = write_magnitude(milli.unsigned_abs(), text);
    if milli >= 0 {
        return first;
    }
    text[first - 1] = b'-';
    first - 1
}

/// Writes a number at the front of 24 bytes, and gives the length of its text. There are always three decimals, and no needless zeros before.
pub fn print_number(n: Num, out: &mut [u8; NUMBER_BYTES]) -> usize
    ensures within { result ≤ NUMBER_BYTES }
    ensures text { take result out.new ≡ number_text n }
{
    let mut text = [0; NUMBER_BYTES];
    let first = write_number(n, &mut text);
    let count = NUMBER_BYTES - first;
    out[..count].copy_from_slice(&text[first..]);
    count
}

/// A printed number is read back as itself.
pub fn printed_numbers_are_read()
    ensures { PrintedNumbersAreRead }
{}
