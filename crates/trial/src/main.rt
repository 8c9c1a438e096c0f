// trial: its two words, and the bytes and lines of standard input counted, as one line on standard output.
#![tactic(auto)]

ghost use Rattle.std.specs.Prelude.{◌≡◌, ◌+◌, ◌^◌, ◌≤◌, ◌<◌, ◌++◌, length};
ghost use Rattle.identifiers.specs.Bytes.{Puts};
ghost use Rattle.text.specs.Digits.{decimal, blank, newlines};
ghost use Rattle.trial.specs.Trial.{trial_text, own_is_trailer};

// What the words ask for.
#[derive(Clone, Copy)]
struct Words {
    mask: u8,
    own: usize,
    ghost is_trailer: { own_is_trailer own },
}

#[derive(Clone, Copy)]
struct Counted {
    bytes: usize,
    lines: usize,
    ghost lines_within: { lines ≤ bytes },
}

fn read_words(rt: HostRuntime) -> Option<Words> {
    if input::words(rt) != 2 {
        return None;
    }
    let mask = input::hex_word(rt, 1, 2)?;
    let own = input::decimal_word(rt, 2, 1)?;
    if !(1..=5).contains(&own) {
        return None;
    }
    Some(Words {
        mask: mask as u8,
        own: own as usize,
    })
}

#[tactic(auto, using(text::proofs::LawsDigits::newlines_count))]
fn count_newlines(chunk: &[u8]) -> usize
    ensures { result ≡ newlines chunk.now }
{
    let mut lines = 0;
    for byte in chunk {
        if *byte == b'\n' {
            lines += 1;
        }
    }
    lines
}

#[tactic(auto, using(crate::proofs::LawsCounts::lines_within))]
fn count_chunk(counted: Counted, chunk: &[u8]) -> Counted
    requires { counted.bytes + length chunk.now < 2 ^ 64 }
    ensures bytes_value { result.bytes ≡ counted.bytes + length chunk.now }
    ensures lines_value { result.lines ≡ counted.lines + newlines chunk.now }
{
    Counted {
        bytes: counted.bytes + chunk.len(),
        lines: counted.lines + count_newlines(chunk),
    }
}

// Standard input to its end. More turns than can be counted are told as a read that failed.
fn count_input(rt: HostRuntime) -> Option<Counted> {
    let mut buffer = [0u8; input::CHUNK];
    let mut counted = Counted { bytes: 0, lines: 0 };
    for _ in 0..input::MOST_CHUNKS {
        let n = input::read_chunk(rt, &mut buffer).ok()?;
        if n == 0 {
            return Some(counted);
        }
        counted = count_chunk(counted, &buffer[..n]);
    }
    None
}

// A blank and a number, where there is room for 21 bytes. Page and place stand apart, as in the functions of `text`, for their reason.
fn put_number(page: &mut [u8], at: usize, number: usize) -> usize
    ensures { at + 21 ≤ length page.old → Puts page.old at (blank ++ decimal number) result page.new }
{
    let digits = text::put(page, at, b" ");
    text::put_decimal(page, digits, number)
}

fn compose(page: &mut [u8], words: Words, counted: Counted) -> usize
    requires { 66 ≤ length page.old }
    ensures puts { Puts page.old 0 (trial_text words.mask words.own counted.bytes counted.lines) result page.new }
    ensures upper_bound { result ≤ length page.new }
{
    let mut at = text::put_hex(page, 0, words.mask);
    at = put_number(page, at, words.own);
    at = put_number(page, at, counted.bytes);
    at = put_number(page, at, counted.lines);
    text::put(page, at, b"\n")
}

// The only place that writes to standard output. Who calls it has shown that the text is that of the words and the counts.
fn send(rt: HostRuntime, words: Words, counted: Counted, text: &[u8])
    requires { text.now ≡ trial_text words.mask words.own counted.bytes counted.lines }
{
    input::write(rt, b"trial", text);
}

fn main(rt: HostRuntime) {
    let Some(words) = read_words(rt) else {
        input::usage(rt, b"trial MASK OWN < FILE");
        return;
    };
    let Some(counted) = count_input(rt) else {
        input::unread(rt, b"trial");
        return;
    };
    let mut page = [0u8; 80];
    let end = compose(&mut page, words, counted);
    send(rt, words, counted, &page[..end]);
}
