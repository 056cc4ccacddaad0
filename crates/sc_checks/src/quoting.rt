//! What stands in a field, in print.
ghost use Rattle.std.specs.Prelude.{◌≡◌, ◌<◌, ◌++◌, [], OnOk, codes, flat_map, length, nat_lt, take, if◌then◌else◌};
ghost use Rattle.sc_checks.specs.Quoting.{byte_text, hex_digit, quoted};

use std::alloc::AllocError;

/// How many bytes of a value are told.
const MOST_TOLD: usize = 40;

/// The hexadecimal digits.
const HEX_DIGITS: &[u8; 16] = b"0123456789ABCDEF";

fn hex_digit(n: u8) -> u8
    requires { n < 16 }
    ensures { result ≡ hex_digit n }
{
    HEX_DIGITS[usize::from(n)]
}

/// Adds a byte in print.
fn push_byte(text: &mut Vec<u8>, byte: u8) -> Result<(), AllocError>
    ensures { OnOk result (text.new.items ≡ text.old.items ++ byte_text byte) }
{
    if byte == b'"' || byte == b'\\' {
        return text.extend_from_slice(&[b'\\', byte]);
    }
    if 32 <= byte && byte <= 126 {
        return text.extend_from_slice(&[byte]);
    }
    text.extend_from_slice(&[b'\\', b'x', hex_digit(byte / 16), hex_digit(byte % 16)])
}

/// Adds bytes in print.
fn push_bytes(text: &mut Vec<u8>, bytes: &[u8]) -> Result<(), AllocError>
    ensures { OnOk result (text.new.items ≡ text.old.items ++ flat_map byte_text bytes.now) }
{
    for byte in bytes {
        push_byte(text, *byte)?;
    }
    Ok(())
}

/// What is told of a value.
fn told_of(value: &[u8]) -> &[u8]
    ensures { result.now ≡ take 40 value.now }
{
    if value.len() > MOST_TOLD {
        return &value[..MOST_TOLD];
    }
    value
}

/// Adds dots where a value is longer than what is told of it.
fn push_dots(text: &mut Vec<u8>, value: &[u8]) -> Result<(), AllocError>
    ensures { OnOk result (text.new.items ≡ text.old.items
        ++ (if nat_lt 40 (length value.now) then codes "..." else [])) }
{
    if value.len() > MOST_TOLD {
        text.extend_from_slice(b"...")?;
    }
    Ok(())
}

/// Adds a value between quotes.
pub(crate) fn push_quoted(text: &mut Vec<u8>, value: &[u8]) -> Result<(), AllocError>
    ensures { OnOk result (text.new.items ≡ text.old.items ++ quoted value.now) }
{
    text.extend_from_slice(b"\"")?;
    push_bytes(text, told_of(value))?;
    text.extend_from_slice(b"\"")?;
    push_dots(text, value)
}
