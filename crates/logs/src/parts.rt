// Parts of a text, found from the left: a byte, digits, bytes of another kind in a row, pairs of digits.
ghost use Rattle.std.specs.Prelude.{◌≡◌, ◌≤◌, get_or, length};
ghost use Rattle.std.specs.Bool.{then_some};
ghost use Rattle.text.specs.Digits.{between};
ghost use Rattle.logs.specs.Outcomes.{data_bytes};
ghost use Rattle.logs.specs.Parts.{end_of, values_from, pairs_from, digits_said, value_said, Ran};

use crate::answer::DataBytes;

// Where decimal digits end, and what they say.
#[derive(Clone, Copy)]
pub struct Run {
    pub end: usize,
    pub value: u64,
}

// Are there digits, and what they say. A flag beside the number: with an Option in their place a line takes `import` 57 ns, so 48, and the
// reach is 10 times log2long.
#[derive(Clone, Copy)]
pub struct Digits {
    pub good: bool,
    pub value: u64,
}

// Text and place stand apart here and below, as `Parts.end_of` has them, since a place may lie past the end.
// The byte at a place, 0 past the end: no mark is 0, and with an Option each of the five marks is asked for no plainer.
pub fn byte_at(text: &[u8], at: usize) -> u8
    ensures { result ≡ get_or text.now at 0 }
{
    text.get(at).copied().unwrap_or(0)
}

// The decimal digits from a place on, however many. By `pass` and `digits_in`, one after the other, a line takes a fifth longer, 62 ns and not
// 51; the reach of `import` is 10 times log2long.
pub fn decimal_run(text: &[u8], from: usize) -> Run
    ensures { Ran text.now from result.end result.value }
{
    let mut value: u64 = 0;
    for end in from..text.len() {
        let byte = text[end];
        if !((b'0' <= byte) & (byte <= b'9')) {
            return Run { end, value };
        }
        value = (value * 10 + (byte - b'0') as u64) % 4294967296;
    }
    Run {
        end: from.max(text.len()),
        value,
    }
}

// The place behind the bytes from low to high, from a place on. By `take_while` and `count`, which proved, a line takes 7 to 10 percent
// longer, and by `skip` 70; the bar is the same.
pub fn pass(text: &[u8], from: usize, low: u8, high: u8) -> usize
    ensures { result ≡ end_of (between low high) text.now from }
{
    for end in from..text.len() {
        let byte = text[end];
        if !((low <= byte) & (byte <= high)) {
            return end;
        }
    }
    from.max(text.len())
}

// The number that what stands between two places says, where it is digits of a base. No turn leaves the loop, so that digits are looked
// at side by side.
pub fn digits_in(text: &[u8], from: usize, to: usize, base: u64) -> Digits
    requires { (from ≤ to) × (base ≤ 16) }
    ensures said { then_some result.good result.value ≡ digits_said base text.now from to }
    ensures value { result.value ≡ value_said base text.now from to }
{
    let Some(digits) = text.get(from..to) else {
        return Digits {
            good: false,
            value: 0,
        };
    };
    let mut good = true;
    let mut value: u64 = 0;
    for byte in digits {
        let digit = text::digit_value(*byte);
        good &= digit < base;
        value = (value * base + digit) % 4294967296;
    }
    Digits { good, value }
}

// The values of sixteen digits from a place on, 16 past the end. No turn leaves the loop, as above. The array is written by index, here
// and below: of what `iter_mut` writes a proof knows no element, and `array::from_fn` would look at each of the sixteen whether it is there.
fn values_from(text: &[u8], from: usize) -> [u8; 16]
    ensures { result ≡ values_from 16 text.now from }
{
    let mut values = [16; 16];
    if text.len() <= from {
        return values;
    }
    for i in 0..(text.len() - from).min(16) {
        values[i] = text::digit_value(text[from + i]) as u8;
    }
    values
}

// At most eight bytes, two digits each, from a place on.
pub fn bytes_from(text: &[u8], from: usize) -> DataBytes
    ensures { result ≡ data_bytes (pairs_from 8 text.now from) }
{
    let values = values_from(text, from);
    let mut bytes = [0; 8];
    for k in 0..8 {
        let high = values[2 * k];
        let low = values[2 * k + 1];
        if !((high < 16) & (low < 16)) {
            return DataBytes {
                count: k as u8,
                bytes,
            };
        }
        bytes[k] = high * 16 + low;
    }
    DataBytes { count: 8, bytes }
}
