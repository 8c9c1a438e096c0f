// mend: the whole readings of a cut sheet, from standard input to standard output, and a line for each dropped stretch to standard error.
#![tactic(auto)]

ghost use Rattle.std.specs.Prelude.{◌≡◌, true, ◌<◌, length};
ghost use Rattle.input.specs.Within.{empty_written};
ghost use Rattle.mending.specs.Mended.{sheet_text, list_text};

// The words given: none. Each program has it by itself, since its edit `words_not_refused` is of `no_word`.
#[derive(Clone, Copy)]
struct NoWord {
    words: usize,
    ghost is_none: { words ≡ 0 },
}

fn no_word(rt: HostRuntime) -> Option<NoWord> {
    let words = input::words(rt);
    if words != 0 {
        return None;
    }
    Some(NoWord { words })
}

// The only place that writes to standard output, and whether that was done. Who calls it has shown that no word was given, and that
// the bytes are those of the mended sheet.
fn send(rt: HostRuntime, given: NoWord, sheet: &[u8], bytes: &[u8]) -> bool
    requires { bytes.now ≡ sheet_text sheet.now }
    ensures { empty_written (length bytes.now) result ≡ true }
{
    input::write(rt, b"mend", bytes)
}

// Who calls it has shown that the lines are those of the dropped stretches.
fn list(rt: HostRuntime, sheet: &[u8], lines: &[u8])
    requires { lines.now ≡ list_text sheet.now }
{
    input::say_lines(rt, lines);
}

// The count sheet's own line.
fn refuse(rt: HostRuntime, given: NoWord, sheet: &[u8])
    requires { 65535 < length sheet.now }
{
    let mut page = [0u8; sheet::PAGE];
    let end = sheet::print(sheet, &mut page);
    if send(rt, given, sheet, &page[..end]) {
        list(rt, sheet, &page[..end]);
    }
}

// The list follows a sheet that was written.
fn mend_sheet(rt: HostRuntime, given: NoWord, sheet: &[u8]) {
    let mut kept = [0u8; sheet::MOST_INPUT];
    let mut page = [0u8; sheet::PAGE];
    match mending::mend(sheet, &mut kept, &mut page) {
        Ok(mended) => {
            if send(rt, given, sheet, &kept[..mended.kept as usize]) {
                list(rt, sheet, &page[..mended.listed as usize]);
            }
        }
        Err(_) => refuse(rt, given, sheet),
    }
}

// The buffer takes one byte more than a sheet may have, so that a longer input is seen to be too long.
#[tactic(auto, using(input::proofs::LawsWithin::within_bytes))]
fn main(rt: HostRuntime) {
    let Some(given) = no_word(rt) else {
        input::usage(rt, b"mend < SHEET > MENDED");
        return;
    };
    let mut buffer = [0u8; input::CHUNK];
    // Each program says it: a function for these lines would give an Option, to be taken apart here again.
    let Ok(n) = input::read_whole(rt, &mut buffer) else {
        input::unread(rt, b"mend");
        return;
    };
    mend_sheet(rt, given, &buffer[..n]);
}
