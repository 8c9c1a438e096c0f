// The lines of a text counted, as far as they have ended, and the bytes of the line that has begun.
ghost use Rattle.std.specs.Prelude.{◌≡◌, ◌+◌, ◌≤◌, ◌<◌, length, take};
ghost use Rattle.identifiers.specs.Refusals.{refusal};
ghost use Rattle.import.specs.Counting.{next_counts, Ready, Takes, Ends, Moved};

use identifiers::Refusal;
use logs::{LogFrame, read_front};

// How many lines there are, how many of them are frames, and how many were passed over.
#[derive(Debug, Clone, Copy, PartialEq, Eq)]
pub struct Counts {
    pub lines: usize,
    pub frames: usize,
    pub passed: usize,
}

// A line that was refused, by its number.
#[derive(Debug, Clone, Copy, PartialEq, Eq)]
pub struct BadLine {
    pub refusal: Refusal,
    pub line: usize,
}

// The counts behind the lines that were taken, and where the line that has begun stands in the text.
#[derive(Clone, Copy)]
pub struct Taken {
    pub counts: Counts,
    pub at: usize,
}

fn next(counts: Counts, line: Result<Option<LogFrame>, Refusal>) -> Result<Counts, BadLine>
    requires { Ready counts 1 }
    ensures { result ≡ next_counts counts line }
{
    let lines = counts.lines + 1;
    match line {
        Ok(Some(_)) => Ok(Counts {
            lines,
            frames: counts.frames + 1,
            passed: counts.passed,
        }),
        Ok(None) => Ok(Counts {
            lines,
            frames: counts.frames,
            passed: counts.passed + 1,
        }),
        Err(refusal) => Err(BadLine {
            refusal,
            line: lines,
        }),
    }
}

// Takes the lines that a newline ends, one after the other, up to one that is refused.
pub(crate) fn take_lines(begun: Counts, text: &[u8]) -> Result<Taken, BadLine>
    requires { Ready begun (length text.now) }
    ensures { Takes begun text.now result }
{
    let mut counts = begun;
    let mut at = 0;
    while let Some(front) = read_front(&text[at..]) {
        counts = next(counts, front.line)?;
        at += front.next;
    }
    Ok(Taken { counts, at })
}

// The line that has begun is the last one, if it has a byte; a newline ends it. With `read_line` here the scan has two callers, is put into
// neither, and a line takes a third more instructions; the reach of `import` is 10 times log2long. The newline stands behind what is held, so buffer
// and length go side by side.
pub(crate) fn last_line(counts: Counts, buffer: &mut [u8], held: usize) -> Result<Counts, BadLine>
    requires { Ready counts (length buffer.old) × (held < length buffer.old) }
    ensures { Ends counts (take held buffer.old) result }
{
    if held == 0 {
        return Ok(counts);
    }
    buffer[held] = b'\n';
    let taken = take_lines(counts, &buffer[..held + 1])?;
    Ok(taken.counts)
}

// A line of more than 255 bytes is malformed, whatever follows.
pub(crate) fn too_long(counts: Counts) -> BadLine
    requires { Ready counts 1 }
    ensures { result ≡ record { refusal = refusal 25; line = counts.lines + 1 } }
{
    BadLine {
        refusal: Refusal::MalformedLine,
        line: counts.lines + 1,
    }
}

// Moves the bytes between two places to the start of the buffer, and answers how many they are.
pub(crate) fn to_front(buffer: &mut [u8], from: usize, to: usize) -> usize
    requires { (from ≤ to) × (to ≤ length buffer.old) }
    ensures { Moved buffer.old from to result buffer.new }
{
    buffer.copy_within(from..to, 0);
    to - from
}
