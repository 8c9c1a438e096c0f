// The table, or the one line of a refusal, printed into a lent page.
ghost use Rattle.std.specs.Prelude.{◌+◌, ◌*◌, ◌≤◌, length};
ghost use Rattle.identifiers.specs.Bytes.{Puts};
ghost use Rattle.identifiers.specs.Refusals.{number_of};
ghost use Rattle.sheet.specs.Text.{header, refusal_line};
ghost use Rattle.sheet.specs.Readings.{readings_in};
ghost use Rattle.sheet.specs.Printed.{lines_of, printed};

use crate::line::put_line;
use crate::reader::read_sheet;
use crate::reading::{READING_SIZE, reading_of};
use crate::sheet_read::RefusedAt;
use text::{put, put_decimal};

// The header, and for each of 3,855 readings a line of at most 23 bytes: two numbers of up to five digits, two of two, a
// word of four letters, four blanks and a newline.
pub const PAGE: usize = 88701;

pub fn put_header(page: &mut [u8; PAGE]) -> usize
    ensures { Puts page.old 0 header result page.new }
{
    put(page, 0, b"position mask available count basis\n")
}

pub fn put_lines(page: &mut [u8; PAGE], start: usize, input: &[u8]) -> usize
    requires { start + 23 * readings_in input.now ≤ length page.old }
    ensures { Puts page.old start (lines_of input.now (readings_in input.now)) result page.new }
{
    let mut at = start;
    for reading in input.chunks_exact(READING_SIZE) {
        at = put_line(page, at, reading_of(reading));
    }
    at
}

pub fn put_refusal(page: &mut [u8; PAGE], refused: RefusedAt) -> usize
    requires { refused.offset ≤ 65535 }
    ensures { Puts page.old 0 (refusal_line (number_of refused.refusal) refused.offset) result page.new }
{
    let first = put(page, 0, b"refused ");
    let word = put_decimal(page, first, refused.refusal.number() as usize);
    let second = put(page, word, b" at ");
    let end = put_decimal(page, second, refused.offset);
    put(page, end, b"\n")
}

// Puts the whole text of an input at the start of the page, and answers how many bytes it has.
pub fn print(input: &[u8], page: &mut [u8; PAGE]) -> usize
    ensures { Puts page.old 0 (printed input.now) result page.new }
{
    match read_sheet(input) {
        Ok(()) => {
            let at = put_header(page);
            put_lines(page, at, input)
        }
        Err(refused) => put_refusal(page, refused),
    }
}
