// A text to standard output, and the lines that a program says on standard error.
ghost use Rattle.std.specs.Prelude.{◌≡◌, true, length};
ghost use Rattle.input.specs.Within.{empty_written};

// One line in one write, of at most 256 bytes: a part that does not fit is left out, and the newline always stands.
fn say(rt: HostRuntime, first: &[u8], second: &[u8]) {
    let mut line = [0u8; 256];
    let parts: &mut [u8] = &mut line[..255];
    let named = text::put(parts, 0, first);
    let said = text::put(parts, named, second);
    let end = said + 1;
    line[said] = b'\n';
    let _ = rt.stderr().write_all(&line[..end]);
}

pub fn usage(rt: HostRuntime, line: &[u8]) {
    say(rt, b"usage: ", line);
}

pub fn unread(rt: HostRuntime, name: &[u8]) {
    say(rt, name, b": standard input could not be read");
}

// Lines to standard error; that they do not arrive can be said nowhere.
pub fn say_lines(rt: HostRuntime, lines: &[u8]) {
    if !lines.is_empty() {
        let _ = rt.stderr().write_all(lines);
    }
}

// Writes the text to standard output; where that fails it says so and answers false: an error would be no plainer, since it is said.
#[tactic(auto, using(crate::proofs::LawsWithin::all_written, crate::proofs::LawsWithin::not_empty))]
pub fn write(rt: HostRuntime, name: &[u8], text: &[u8]) -> bool
    ensures { empty_written (length text.now) result ≡ true }
{
    if text.is_empty() || rt.write_all(text).is_ok() {
        return true;
    }
    say(rt, name, b": standard output could not be written");
    false
}
