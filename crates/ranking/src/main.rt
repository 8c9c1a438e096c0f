// ranking: the page of one mask from the sheet of standard input, to standard output.
#![tactic(auto)]

ghost use Rattle.std.specs.Prelude.{◌≡◌};
ghost use Rattle.sheet.specs.Ranked.{ranked_text};

// What the one word asks for: the page of a mask.
#[derive(Clone, Copy)]
struct Asked {
    words: usize,
    mask: u8,
    ghost one_word: { words ≡ 1 },
}

// MASK is two hexadecimal digits.
#[tactic(auto, using(input::proofs::LawsWithin::below_number))]
fn read_words(rt: HostRuntime) -> Option<Asked> {
    let words = input::words(rt);
    if words != 1 {
        return None;
    }
    let mask = input::hex_word(rt, 1, 2)?;
    Some(Asked {
        words,
        mask: mask as u8,
    })
}

// The only place that writes to standard output. Who calls it has shown that one word was given, and that the text is the page of
// the mask.
fn send(rt: HostRuntime, asked: Asked, sheet: &[u8], text: &[u8])
    requires { text.now ≡ ranked_text sheet.now asked.mask }
{
    input::write(rt, b"ranking", text);
}

fn print_page(rt: HostRuntime, asked: Asked, sheet: &[u8]) {
    let mut page = [0u8; sheet::PAGE];
    let end = sheet::rank(sheet, asked.mask, &mut page);
    send(rt, asked, sheet, &page[..end]);
}

// The buffer takes one byte more than a sheet may have, so that a longer input is seen to be too long.
#[tactic(auto, using(input::proofs::LawsWithin::within_bytes))]
fn answer(rt: HostRuntime, asked: Asked) {
    let mut buffer = [0u8; input::CHUNK];
    // Each program says it: a function for these lines would give an Option, to be taken apart here again.
    let Ok(n) = input::read_whole(rt, &mut buffer) else {
        input::unread(rt, b"ranking");
        return;
    };
    print_page(rt, asked, &buffer[..n]);
}

fn main(rt: HostRuntime) {
    let Some(asked) = read_words(rt) else {
        input::usage(rt, b"ranking MASK < SHEET");
        return;
    };
    answer(rt, asked);
}
