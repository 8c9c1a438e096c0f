// What the published examples are made of: the lines that are said, and the tables of cases, whose parts stand between marks.
#![tactic(auto)]

ghost use Rattle.std.specs.Prelude.{◌≡◌, not, ◌%◌, eqb, get_or, take};
ghost use Rattle.published_lines.specs.Tables.{marks_of, part_of, value_of};

// That the line does not arrive is said nowhere.
pub fn say(rt: HostRuntime, text: &[u8]) {
    let _ = rt.write_all(text);
}

// Words, and a number behind them.
pub fn say_number(rt: HostRuntime, words: &[u8], number: usize) {
    say(rt, words);
    let _ = rt.print(number);
}

// Words, and a byte behind them in two digits.
pub fn say_byte(rt: HostRuntime, words: &[u8], byte: u8) {
    let mut digits = [0u8; 2];
    text::put_hex(&mut digits, 0, byte);
    say(rt, words);
    say(rt, &digits);
}

// A number of 32 bits in eight digits.
pub fn say_long(rt: HostRuntime, number: u32) {
    for byte in number.to_be_bytes() {
        say_byte(rt, b"", byte);
    }
}

// A space and two digits for each byte.
pub fn say_bytes(rt: HostRuntime, text: &[u8]) {
    for byte in text {
        say_byte(rt, b" ", *byte);
    }
}

// Ends a line with a refusal, and says whether there is one: number 0 is none, since the clause speaks of every number.
pub fn refused(rt: HostRuntime, number: u8) -> bool
    ensures { result ≡ not (eqb number 0) }
{
    if number == 0 {
        return false;
    }
    say_number(rt, b"refused ", number as usize);
    say(rt, b"\n");
    true
}

// The first bytes, or all where there are fewer.
pub fn front(text: &[u8], count: usize) -> &[u8]
    ensures { result.now ≡ take count text.now }
{
    &text[..count.min(text.len())]
}

// The first byte, or 0 where there is none: rows are told apart by letters, of which 0 is none.
pub fn letter(text: &[u8]) -> u8
    ensures { result ≡ get_or text.now 0 0 }
{
    text.first().copied().unwrap_or(0)
}

pub fn marks(text: &[u8], mark: u8) -> usize
    ensures { result ≡ marks_of mark text.now }
{
    text.iter().filter(|b| **b == mark).count()
}

// What stands behind k marks, up to the next one; nothing where there are fewer.
pub fn part(text: &[u8], mark: u8, k: usize) -> &[u8]
    ensures { result.now ≡ part_of mark k text.now }
{
    text.split(|b| *b == mark).nth(k).unwrap_or(&[])
}

// The words of a line, with a word of the case at each mark #, and the next word in bytes at a mark $ behind them. By number: the parts of
// both texts go side by side, and what stands behind the last mark is of one of them alone.
pub fn say_case(rt: HostRuntime, line: &[u8], case: &[u8]) {
    let count = marks(line, b'#');
    for k in 0..count {
        say(rt, part(line, b'#', k));
        say(rt, part(case, b';', k));
    }
    let end = part(line, b'#', count);
    say(rt, part(end, b'$', 0));
    if marks(end, b'$') != 0 {
        say_bytes(rt, part(case, b';', count));
        say(rt, part(end, b'$', 1));
    }
}

// A word of a case as a number, 0 where it says none: to base 16 in hexadecimal, to every other in decimal. `value_of` is said of every base.
#[tactic(auto, unfolding(crate::specs::Tables::value_of, identifiers::specs::Choice::pick))]
pub fn value(case: &[u8], k: usize, base: u8) -> u32
    ensures { result ≡ value_of base (part_of 59 k case.now) }
{
    let word = part(case, b';', k);
    if base == 16 {
        return text::read_hex(word, word.len()).unwrap_or(0);
    }
    text::read_decimal(word, word.len()).unwrap_or(0)
}

pub fn byte(case: &[u8], k: usize, base: u8) -> u8
    ensures { result ≡ value_of base (part_of 59 k case.now) % 256 }
{
    (value(case, k, base) % 256) as u8
}
