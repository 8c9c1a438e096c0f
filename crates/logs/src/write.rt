// A frame written as a line of a log, with its newline.
ghost use Rattle.std.specs.Prelude.{◌≡◌, ◌+◌, ◌*◌, ◌≤◌, ◌<◌, length};
ghost use Rattle.identifiers.specs.Bytes.{Puts};
ghost use Rattle.logs.specs.Written.{hexes, millis, line_written, text_after};

use crate::answer::TOO_LARGE;
use identifiers::Refusal;
use text::{put, put_decimal, put_hex};

// A line has at most 48 bytes: seven digits of seconds, six of microseconds, eight of the identifier, sixteen of data, `can0`, and seven
// signs.
pub const TEXT: usize = 48;

// Text and place stand apart here and below, as in the functions of `text`, for their reason.
fn put_hexes(text: &mut [u8], start: usize, bytes: &[u8]) -> usize
    requires { start + 2 * length bytes.now ≤ length text.old }
    ensures { Puts text.old start (hexes bytes.now) result text.new }
{
    let mut at = start;
    for byte in bytes {
        at = put_hex(text, at, *byte);
    }
    at
}

// Milliseconds as six digits of microseconds.
fn put_millis(text: &mut [u8], at: usize, number: u32) -> usize
    requires { (at + 6 ≤ length text.old) × (number < 1000) }
    ensures { Puts text.old at (millis number) result text.new }
{
    let digits = [
        b'0' + (number / 100) as u8,
        b'0' + (number / 10 % 10) as u8,
        b'0' + (number % 10) as u8,
        b'0',
        b'0',
        b'0',
    ];
    put(text, at, &digits)
}

// How many bytes the line has, its newline among them.
pub fn write_line(
    identifier: u32,
    data: &[u8],
    stamp: u32,
    text: &mut [u8; TEXT],
) -> Result<u8, Refusal>
    ensures { (result ≡ line_written identifier «data».now stamp) × (text.new ≡ text_after identifier «data».now stamp text.old) }
{
    if TOO_LARGE <= identifier {
        return Err(Refusal::IdentifierTooLarge);
    }
    if 8 < data.len() {
        return Err(Refusal::TooManyDataBytes);
    }
    let name = identifier.to_be_bytes();
    let a = put(text, 0, b"(");
    let b = put_decimal(text, a, (stamp / 1000) as usize);
    let c = put(text, b, b".");
    let d = put_millis(text, c, stamp % 1000);
    let e = put(text, d, b") can0 ");
    let f = put_hexes(text, e, &name);
    let g = put(text, f, b"#");
    let h = put_hexes(text, g, data);
    let end = put(text, h, b"\n");
    Ok(end as u8)
}
