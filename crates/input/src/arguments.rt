// The words that a program was given behind its name.
ghost use Rattle.std.specs.Prelude.{◌≡◌, true, ◌^◌, length};
ghost use Rattle.input.specs.Within.{words_within, within, below};

use std::env::{Env, FillError};

// How many words there are: those up to the first that is not there.
#[tactic(auto, unfolding(crate::specs::Within::words_within))]
pub fn words(rt: HostRuntime) -> usize
    ensures { words_within result ≡ true }
{
    let given = |number: &usize| !matches!(rt.arg(*number, &mut []), Err(FillError::NotPresent));
    (1..usize::MAX).take_while(given).count()
}

// Puts a word, counted from 1, at the start of the buffer: how many bytes it has, or that there is no such word, or that the
// buffer does not take it.
#[tactic(auto, unfolding(crate::specs::Within::within))]
pub fn word(rt: HostRuntime, number: usize, buffer: &mut [u8]) -> Result<usize, FillError>
    ensures { within (length buffer.new) result ≡ true }
{
    rt.arg(number, buffer)
}

// The bytes of a word that the buffer takes.
fn taken_word(rt: HostRuntime, number: usize, buffer: &mut [u8]) -> Option<&[u8]> {
    let n = word(rt, number, buffer).ok()?;
    Some(&buffer[..n])
}

// A word of exactly so many digits; a word that is missing or longer than 16 bytes is no number. Both names are public,
// and stay: to a base over 16 other bytes would be digits, and no public function may ask for less.
#[tactic(auto, using(crate::proofs::LawsWithin::none_below, crate::proofs::LawsWithin::read_below))]
pub fn hex_word(rt: HostRuntime, number: usize, places: usize) -> Option<u32>
    ensures { below (16 ^ places) result ≡ true }
{
    text::read_hex(taken_word(rt, number, &mut [0u8; 16])?, places)
}

#[tactic(auto, using(crate::proofs::LawsWithin::none_below, crate::proofs::LawsWithin::read_below))]
pub fn decimal_word(rt: HostRuntime, number: usize, places: usize) -> Option<u32>
    ensures { below (10 ^ places) result ≡ true }
{
    text::read_decimal(taken_word(rt, number, &mut [0u8; 16])?, places)
}
