// The line of one dropped stretch.
ghost use Rattle.std.specs.Prelude.{◌+◌, ◌≤◌, length};
ghost use Rattle.identifiers.specs.Bytes.{Puts};
ghost use Rattle.mending.specs.Listed.{stretch_text};

use text::{put, put_decimal};

// Nothing of a stretch without a byte. Page and place go side by side as in sheet's `put_line`, for its reason.
#[tactic(auto, using(identifiers::proofs::LawsBytes::puts_none), unfolding(crate::specs::Listed::stretch_text, identifiers::specs::Choice::pick))]
pub fn put_stretch(page: &mut [u8], at: usize, offset: usize, count: usize) -> usize
    requires { at + length (stretch_text offset count) ≤ length page.old }
    ensures { Puts page.old at (stretch_text offset count) result page.new }
{
    if count == 0 {
        return at;
    }
    let first = put(page, at, b"dropped ");
    let word = put_decimal(page, first, count);
    let second = put(page, word, b" at ");
    let end = put_decimal(page, second, offset);
    put(page, end, b"\n")
}
