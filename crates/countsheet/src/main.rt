// countsheet: the sheet of standard input, as a table or as one line of refusal, to standard output.
#![tactic(auto)]

ghost use Rattle.std.specs.Prelude.{◌≡◌};
ghost use Rattle.sheet.specs.Printed.{printed};

// The words given: none. Each program has it by itself, since its edit `words_not_refused` is of `no_word`.
#[derive(Clone, Copy)]
struct NoWord {
    words: usize,
    ghost is_none: { words ≡ 0 },
}

fn no_word(rt: HostRuntime) -> Option<NoWord> {
    let words = input::words(rt);
    if words != 0 {
        return None;
    }
    Some(NoWord { words })
}

// The only place that writes to standard output. Who calls it has shown that no word was given, and that the text is that of the
// sheet.
fn send(rt: HostRuntime, given: NoWord, sheet: &[u8], text: &[u8])
    requires { text.now ≡ printed sheet.now }
{
    input::write(rt, b"countsheet", text);
}

// The buffer takes one byte more than a sheet may have, so that a longer input is seen to be too long.
#[tactic(auto, using(input::proofs::LawsWithin::within_bytes))]
fn print_sheet(rt: HostRuntime, given: NoWord) {
    let mut buffer = [0u8; input::CHUNK];
    // Each program says it: a function for these lines would give an Option, to be taken apart here again.
    let Ok(n) = input::read_whole(rt, &mut buffer) else {
        input::unread(rt, b"countsheet");
        return;
    };
    let mut page = [0u8; sheet::PAGE];
    let end = sheet::print(&buffer[..n], &mut page);
    send(rt, given, &buffer[..n], &page[..end]);
}

fn main(rt: HostRuntime) {
    let Some(given) = no_word(rt) else {
        input::usage(rt, b"countsheet < SHEET");
        return;
    };
    print_sheet(rt, given);
}
