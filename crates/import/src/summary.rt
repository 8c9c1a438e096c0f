// What is said of a log: its counts, or its first bad line.
ghost use Rattle.std.specs.Prelude.{◌++◌, ◌+◌, ◌≤◌, length};
ghost use Rattle.identifiers.specs.Bytes.{Puts};
ghost use Rattle.text.specs.Digits.{decimal, newline};
ghost use Rattle.import.specs.Counting.{summary_of};

use crate::counting::{BadLine, Counts};
use text::{put, put_decimal};

// Two numbers, each behind its words, and a newline. Page and place stand apart, as in the functions of `text`, for their reason.
fn put_two(page: &mut [u8], first: &[u8], number: usize, second: &[u8], other: usize) -> usize
    requires { length first.now + (length second.now + 41) ≤ length page.old }
    ensures puts { Puts page.old 0 (first.now ++ decimal number ++ second.now ++ decimal other ++ newline) result page.new }
    ensures upper_bound { result ≤ length page.new }
{
    let a = put(page, 0, first);
    let b = put_decimal(page, a, number);
    let c = put(page, b, second);
    let d = put_decimal(page, c, other);
    put(page, d, b"\n")
}

pub(crate) fn put_summary(page: &mut [u8], counts: Result<Counts, BadLine>) -> usize
    requires { 80 ≤ length page.old }
    ensures puts { Puts page.old 0 (summary_of counts) result page.new }
    ensures upper_bound { result ≤ length page.new }
{
    match counts {
        Ok(counts) => put_two(
            page,
            b"frames ",
            counts.frames,
            b"\npassed over ",
            counts.passed,
        ),
        Err(bad) => put_two(
            page,
            b"refused ",
            bad.refusal.number() as usize,
            b" at line ",
            bad.line,
        ),
    }
}
