// What a line is read as, and the answers of reading and writing one in numbers.
ghost use Rattle.std.specs.Prelude.{◌≡◌, take};
ghost use Rattle.identifiers.specs.Bytes.{written};
ghost use Rattle.logs.specs.Outcomes.{frame_told};
ghost use Rattle.logs.specs.Written.{line_told};

use identifiers::Refusal;
use text::put;

// Identifiers have 29 bits.
pub const TOO_LARGE: u32 = 1 << 29;

// The data bytes of a frame: the first `count` of the array, and 0 behind them. A count beside an array: there is no heap.
#[derive(Debug, Clone, Copy, PartialEq, Eq)]
pub struct DataBytes {
    pub count: u8,
    pub bytes: [u8; 8],
}

#[derive(Debug, Clone, Copy, PartialEq, Eq)]
pub struct LogFrame {
    pub identifier: u32,
    pub stamp: u32,
    pub data: DataBytes,
}

// What a line is read as, in numbers: the refusal, 0 for none; without a frame its numbers are 0.
#[repr(C)]
#[derive(Clone, Copy)]
pub struct LogFrameTold {
    pub refusal: u8,
    pub passed_over: bool,
    pub length: u8,
    pub identifier: u32,
    pub stamp: u32,
}

// The refusal, 0 for none, and how many bytes the line has.
#[repr(C)]
#[derive(Clone, Copy)]
pub struct LogLineTold {
    pub refusal: u8,
    pub length: u8,
}

// Puts the first bytes of a frame's eight at the start of a lent array. Bytes and count are promised apart, and the count bounded by nobody.
pub fn put_data(bytes: &[u8; 8], count: u8, data: &mut [u8; 8])
    ensures { «data».new ≡ written «data».old 0 (take count bytes.now) }
{
    let end = (count as usize).min(8);
    put(data, 0, &bytes[..end]);
}

impl From<Result<Option<LogFrame>, Refusal>> for LogFrameTold {
    ghost from_gives = { λ r t. t ≡ frame_told r };

    fn from(line: Result<Option<LogFrame>, Refusal>) -> LogFrameTold {
        let mut told = LogFrameTold {
            refusal: 0,
            passed_over: false,
            length: 0,
            identifier: 0,
            stamp: 0,
        };
        match line {
            Ok(Some(frame)) => {
                told.length = frame.data.count;
                told.identifier = frame.identifier;
                told.stamp = frame.stamp;
            }
            Ok(None) => told.passed_over = true,
            Err(why) => told.refusal = why.number(),
        }
        told
    }
}

impl From<Result<u8, Refusal>> for LogLineTold {
    ghost from_gives = { λ r t. t ≡ line_told r };

    fn from(line: Result<u8, Refusal>) -> LogLineTold {
        match line {
            Ok(length) => LogLineTold { refusal: 0, length },
            Err(why) => LogLineTold {
                refusal: why.number(),
                length: 0,
            },
        }
    }
}
