// What stands at the front of a text, taken as a line: whether it begins with a line's parts, where they end, and what they say.
ghost use Rattle.std.specs.Prelude.{◌≡◌};
ghost use Rattle.logs.specs.Lines.{dot_at};
ghost use Rattle.logs.specs.Scans.{time_said, name_said, name_reads, scanned};

use crate::answer::{DataBytes, LogFrame, TOO_LARGE};
use crate::parts::{Digits, byte_at, bytes_from, decimal_run, digits_in, pass};
use identifiers::Refusal;

// Where the parts of a line end, and what they are read as.
#[derive(Clone, Copy)]
pub struct Scanned {
    pub end: usize,
    pub line: Result<Option<LogFrame>, Refusal>,
}

#[derive(Clone, Copy)]
struct Time {
    dot: usize,
    stamp: u32,
}

// An identifier, none where it has three digits, and where its mark stands.
#[derive(Clone, Copy)]
struct Name {
    mark: usize,
    number: Option<u32>,
}

// The time in its brackets.
fn time_of(text: &[u8]) -> Option<Time>
    ensures { result ≡ time_said text.now }
{
    let seconds = decimal_run(text, 1);
    let dot = seconds.end;
    let Digits {
        good,
        value: micros,
    } = digits_in(text, dot + 1, dot + 7, 10);
    if !good {
        return None;
    }
    if (byte_at(text, 0) == b'(')
        & ((1 < dot) & ((byte_at(text, dot) == b'.') & (byte_at(text, dot + 7) == b')')))
    {
        let stamp = (seconds.value * 1000 + micros / 1000) % 4294967296;
        return Some(Time {
            dot,
            stamp: stamp as u32,
        });
    }
    None
}

// The identifier behind its interface: the mark stands behind three digits, or else behind eight.
fn name_of(text: &[u8], dot: usize) -> Option<Name>
    requires { dot ≡ dot_at text.now }
    ensures { result ≡ name_said text.now }
{
    let interface = pass(text, dot + 8, b' ', b' ');
    let gap = pass(text, interface, b'!', b'~');
    if !((dot + 8 < interface) & ((interface < gap) & (byte_at(text, gap) == b' '))) {
        return None;
    }
    if byte_at(text, gap + 4) == b'#' {
        let Digits { good, .. } = digits_in(text, gap + 1, gap + 4, 16);
        if !good {
            return None;
        }
        return Some(Name {
            mark: gap + 4,
            number: None,
        });
    }
    let Digits {
        good,
        value: number,
    } = digits_in(text, gap + 1, gap + 9, 16);
    if !good {
        return None;
    }
    if byte_at(text, gap + 9) != b'#' {
        return None;
    }
    Some(Name {
        mark: gap + 9,
        number: Some(number as u32),
    })
}

// What the parts of a line say.
fn line_of(name: Name, stamp: u32, data: DataBytes) -> Result<Option<LogFrame>, Refusal>
    ensures { result ≡ name_reads name.number stamp «data» }
{
    let Some(identifier) = name.number else {
        return Ok(None);
    };
    if TOO_LARGE <= identifier {
        return Err(Refusal::IdentifierTooLarge);
    }
    Ok(Some(LogFrame {
        identifier,
        stamp,
        data,
    }))
}

pub fn scan(text: &[u8]) -> Option<Scanned>
    ensures { result ≡ scanned text.now }
{
    let time = time_of(text)?;
    let name = name_of(text, time.dot)?;
    let data = bytes_from(text, name.mark + 1);
    Some(Scanned {
        end: name.mark + 1 + 2 * (data.count as usize),
        line: line_of(name, time.stamp, data),
    })
}
