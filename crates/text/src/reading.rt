// Digits read: the value of one, and the number that exactly so many say.
ghost use Rattle.std.specs.Prelude.{◌≡◌, ◌≤◌};
ghost use Rattle.identifiers.specs.Choice.{pick};
ghost use Rattle.text.specs.Digits.{digit_value};
ghost use Rattle.text.specs.Reading.{digits_read};

// One of two numbers, with no branch in the compiled code.
#[tactic(auto, unfolding(identifiers::specs::Choice::pick))]
fn choose(test: bool, yes: u64, no: u64) -> u64
    ensures { result ≡ pick test yes no }
{
    if test { yes } else { no }
}

// The value of a decimal or hexadecimal digit, capital or small; 16 for every other byte. Which kind a digit is cannot be foretold, so
// nothing branches on it: by plain tests a line of a log at random takes `import` 1.8 times as long, by std's `to_digit` digits in no
// order take from 1.3 to 2 times as long.
pub fn digit_value(byte: u8) -> u64
    ensures { result ≡ digit_value byte }
{
    let decimal = byte.wrapping_sub(b'0') as u64;
    let letter = (byte | 32).wrapping_sub(b'a') as u64;
    choose(decimal < 10, decimal, choose(letter < 6, letter + 10, 16))
}

fn read_digits<const BASE: u64>(text: &[u8], places: usize) -> Option<u32>
    requires { BASE ≤ 16 }
    ensures { result ≡ digits_read BASE places text.now }
{
    if text.len() != places {
        return None;
    }
    let mut number = 0u32;
    for byte in text {
        let digit = digit_value(*byte);
        if BASE <= digit {
            return None;
        }
        number = u32::try_from(number as u64 * BASE + digit).ok()?;
    }
    Some(number)
}

// The number that a text of exactly so many decimal digits says, below 2^32.
pub fn read_decimal(text: &[u8], places: usize) -> Option<u32>
    ensures { result ≡ digits_read 10 places text.now }
{
    read_digits::<10>(text, places)
}

// The number that a text of exactly so many hexadecimal digits says, capital or small, below 2^32.
pub fn read_hex(text: &[u8], places: usize) -> Option<u32>
    ensures { result ≡ digits_read 16 places text.now }
{
    read_digits::<16>(text, places)
}
