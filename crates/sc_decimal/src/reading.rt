//! Numbers read from decimal digits.

ghost use Rattle.std.specs.Prelude.{◌≡◌, ℕ, ◌-◌, ◌≤◌, true, nat_le, ◌==◌, ◌↔◌, None, Some, decimal, if◌then◌else◌};
ghost use Rattle.std.specs.Char.{is_ascii_digit};
ghost use Rattle.sc_decimal.specs.Number.{number_at_front, has_leading_zero, read_number, read_plain_number};

/// The most digits that a number has in a text: nine of them write any number of the papers.
const MOST_DIGITS: usize = 9;

/// A number with how many digits write it, or `None` where none do.
fn written(number: u32, digits: usize) -> Option<(u32, usize)>
    ensures { result ≡ if digits == 0 then None else Some (number, digits) }
{
    if digits == 0 {
        return None;
    }
    Some((number, digits))
}

/// The value of a byte that is a digit; for another byte it is more than 9.
#[inline(always)]
fn digit_value(byte: u8) -> u32
    ensures value { is_ascii_digit byte ≡ true → result ≡ byte - 48 }
    ensures decides { nat_le result 9 ≡ is_ascii_digit byte }
{
    u32::from(byte).wrapping_sub(u32::from(b'0'))
}

/// What `number_at_front` answers, byte by byte.
#[inline(always)]
fn read_digits(text: &[u8]) -> Option<(u32, usize)>
    ensures { result ≡ number_at_front text.now }
{
    let mut number = 0;
    for index in 0..text.len() {
        let digit = digit_value(text[index]);
        if digit > 9 {
            return written(number, index);
        }
        if index == MOST_DIGITS {
            return None;
        }
        number = number * 10 + digit;
    }
    written(number, text.len())
}

/// The number that a text begins with, and how many digits write it: all those before the first
/// byte that is none. `None` where they are not 1 to 9. The cost is that of 10 bytes at most.
#[inline(always)]
pub fn number_at_front(text: &[u8]) -> Option<(u32, usize)>
    ensures { result ≡ number_at_front text.now }
{
    if text.len() > MOST_DIGITS {
        // These decide, and since there are so many, none is tested for the end of the text.
        return read_digits(&text[..MOST_DIGITS + 1]);
    }
    read_digits(text)
}

/// The number that a text of 1 to 9 decimal digits writes, whether or not the first of them are
/// zeros, or `None` where the text is none. The cost is that of 10 bytes at most.
pub fn read_number(text: &[u8]) -> Option<u32>
    ensures { result ≡ read_number text.now }
{
    match number_at_front(text) {
        Some((number, digits)) if digits == text.len() => Some(number),
        _ => None,
    }
}

/// Whether a text of several digits begins with a zero.
#[tactic(auto, unfolding(crate::specs::Number::has_leading_zero))]
fn has_leading_zero(text: &[u8]) -> bool
    ensures { result ≡ has_leading_zero text.now }
{
    text.len() > 1 && text[0] == b'0'
}

/// The number, at most 999,999,999, whose digits a text is, as `push_number` writes them: without
/// leading zeros. `None` for every other text. The cost is that of 9 digits at most.
#[tactic(auto, unfolding(crate::specs::Number::read_plain_number))]
pub fn read_plain_number(text: &[u8]) -> Option<u32>
    ensures value { result ≡ read_plain_number text.now }
    ensures spelled { (n : ℕ) → n ≤ 999999999 → (result ≡ Some n) ↔ (text.now ≡ decimal n) }
{
    if has_leading_zero(text) {
        return None;
    }
    read_number(text)
}
