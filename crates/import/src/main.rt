// import: the frames of a log and its lines passed over, counted, or its first bad line, from standard input to standard output.
#![tactic(auto)]

ghost use Rattle.std.specs.Prelude.{◌≡◌, List, ℕ, length};
ghost use Rattle.importing.specs.Logs.{imported};
ghost use Rattle.importing.specs.Summaries.{summary_text};
ghost use Rattle.import.specs.Counting.{counts_of, counts_read};
ghost use Rattle.import.specs.declared.Stopped.TheVariants.{Bad};

mod counting;
mod summary;

use counting::{BadLine, Counts, last_line, take_lines, to_front, too_long};
use summary::put_summary;

// Why a log has no counts.
#[derive(Debug, Clone, Copy, PartialEq, Eq)]
pub enum Stopped {
    Unread,
    Bad(BadLine),
}

impl From<BadLine> for Stopped {
    ghost from_gives = { λ bad stopped. stopped ≡ Bad bad };

    fn from(bad: BadLine) -> Stopped {
        Stopped::Bad(bad)
    }
}

// The only place that writes to standard output. Who calls it has shown that no word was given, and that the text is the summary of a
// log.
fn send(rt: HostRuntime, words: usize, text: &[u8])
    requires { (words ≡ 0) × ((log : List ℕ) × (text.now ≡ summary_text (imported log))) }
{
    input::write(rt, b"import", text);
}

// Standard input, to its end, to a line that is refused or to one that is too long whatever follows. The line that has begun stands at
// the start of the buffer, and what is read stands behind it. More turns than can be counted are told as a read that failed.
fn read_log(rt: HostRuntime, buffer: &mut [u8; input::CHUNK]) -> Result<Counts, Stopped>
    ensures { (log : List ℕ) × (counts_read result (counts_of (imported log)) ≡ counts_of (imported log)) }
{
    let mut counts = Counts {
        lines: 0,
        frames: 0,
        passed: 0,
    };
    let mut held = 0;
    for _turn in 0..input::MOST_CHUNKS {
        let Ok(n) = input::read_chunk(rt, &mut buffer[held..]) else {
            return Err(Stopped::Unread);
        };
        if n == 0 {
            return Ok(last_line(counts, buffer, held)?);
        }
        let end = held + n;
        let taken = take_lines(counts, &buffer[..end])?;
        if 255 < end - taken.at {
            return Err(Stopped::Bad(too_long(taken.counts)));
        }
        counts = taken.counts;
        held = to_front(buffer, taken.at, end);
    }
    Err(Stopped::Unread)
}

fn import_log(rt: HostRuntime, words: usize)
    requires { words ≡ 0 }
{
    let mut buffer = [0u8; input::CHUNK];
    let counts = match read_log(rt, &mut buffer) {
        Ok(counts) => Ok(counts),
        Err(Stopped::Bad(bad)) => Err(bad),
        Err(Stopped::Unread) => {
            input::unread(rt, b"import");
            return;
        }
    };
    let mut page = [0u8; 80];
    let end = put_summary(&mut page, counts);
    send(rt, words, &page[..end]);
}

fn main(rt: HostRuntime) {
    let words = input::words(rt);
    if words != 0 {
        input::usage(rt, b"import < LOG");
        return;
    }
    import_log(rt, words);
}
