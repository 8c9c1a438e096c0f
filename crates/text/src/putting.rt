// A text, a number in decimal or a byte in hexadecimal put into a lent buffer. Where it fits it is put and the place behind it
// is answered; where it does not, nothing is written and the place is answered as it was: the clause `PutsIfFits` has no Option. All
// printing goes into a lent page, since there is no heap; by `PutsIfFits` each byte of it is promised, and of what `write!` puts std's
// `fmt` ensures nothing. Buffer and place stand apart: of a struct that lends the buffer each contract would have to say besides that
// it lends the same one.
ghost use Rattle.std.specs.Prelude.{◌≡◌, ◌+◌, ◌≤◌, ◌<◌, length};
ghost use Rattle.std.specs.Option.{SomeIff};
ghost use Rattle.text.specs.Digits.{decimal, hex, hex_digit};
ghost use Rattle.text.specs.Putting.{PutsIfFits};

// The place behind so many bytes, where they fit the buffer.
fn end_of(buffer: &[u8], at: usize, count: usize) -> Option<usize>
    ensures { SomeIff result (at + count ≤ length buffer.now) (at + count) }
{
    at.checked_add(count).filter(|end| *end <= buffer.len())
}

// By index: copied at once it would be a call of `memmove`, which no archive needs else.
pub fn put(buffer: &mut [u8], at: usize, text: &[u8]) -> usize
    ensures { PutsIfFits buffer.old at text.now result buffer.new }
{
    let Some(end) = end_of(buffer, at, text.len()) else {
        return at;
    };
    for (i, byte) in text.iter().enumerate() {
        buffer[at + i] = *byte;
    }
    end
}

// How many digits a number has. By division: `ilog10` would bring a table of 160 bytes into each archive.
fn places_of(number: usize) -> usize
    ensures { result ≡ length (decimal number) }
{
    let mut rest = number;
    let mut places = 1;
    while 10 <= rest {
        rest /= 10;
        places += 1;
    }
    places
}

// The digits from the last one on. By index: of what `iter_mut().rev()` writes a proof knows no element. The first stands alone, so that
// the loop has as many turns as that of `places_of`: numbers of any length take three quarters of the time.
pub fn put_decimal(buffer: &mut [u8], at: usize, number: usize) -> usize
    ensures { PutsIfFits buffer.old at (decimal number) result buffer.new }
{
    let Some(end) = end_of(buffer, at, places_of(number)) else {
        return at;
    };
    let mut rest = number;
    for place in (at + 1..end).rev() {
        buffer[place] = b'0' + (rest % 10) as u8;
        rest /= 10;
    }
    buffer[at] = b'0' + rest as u8;
    end
}

#[tactic(auto, unfolding(identifiers::specs::Choice::pick, crate::specs::Digits::hex_digit))]
fn hex_digit(value: u8) -> u8
    requires { value < 16 }
    ensures { result ≡ hex_digit value }
{
    if value < 10 {
        b'0' + value
    } else {
        b'A' - 10 + value
    }
}

pub fn put_hex(buffer: &mut [u8], at: usize, byte: u8) -> usize
    ensures { PutsIfFits buffer.old at (hex byte) result buffer.new }
{
    put(buffer, at, &[hex_digit(byte / 16), hex_digit(byte % 16)])
}
