// A line of a log read: one that is given without its newline, and the one at the front of a text.
ghost use Rattle.std.specs.Prelude.{◌≡◌, ◌==◌, position};
ghost use Rattle.logs.specs.Lines.{line_read};
ghost use Rattle.logs.specs.Fronts.{front_read};

use crate::answer::LogFrame;
use crate::parts::byte_at;
use crate::scan::scan;
use identifiers::Refusal;

// A line that a newline ends, and where the next one begins.
#[derive(Debug, Clone, Copy, PartialEq, Eq)]
pub struct Front {
    pub next: usize,
    pub line: Result<Option<LogFrame>, Refusal>,
}

// Nothing where the line is passed over.
pub fn read_line(line: &[u8]) -> Result<Option<LogFrame>, Refusal>
    ensures { result ≡ line_read line.now }
{
    let found = scan(line).ok_or(Refusal::MalformedLine)?;
    if (found.end == line.len()) & (found.end <= 255) {
        return found.line;
    }
    Err(Refusal::MalformedLine)
}

fn line_end(text: &[u8]) -> Option<usize>
    ensures { result ≡ position (λ b. b == 10) text.now }
{
    text.iter().position(|byte| *byte == b'\n')
}

// The line up to the first newline, none where it has only begun. A sound line ends where its parts end. Of any other the newline is
// looked for, and what stands before it is malformed.
pub fn read_front(text: &[u8]) -> Option<Front>
    ensures { result ≡ front_read text.now }
{
    if let Some(found) = scan(text) {
        let end = found.end;
        if (byte_at(text, end) == b'\n') & (end <= 255) {
            return Some(Front {
                next: end + 1,
                line: found.line,
            });
        }
    }
    let stop = line_end(text)?;
    Some(Front {
        next: stop + 1,
        line: Err(Refusal::MalformedLine),
    })
}
