// Standard input, a chunk at a time or whole. A read that fails is not the end of the input.
ghost use Rattle.std.specs.Prelude.{◌≡◌, true, length};
ghost use Rattle.input.specs.Within.{within};

use std::io::{self, Read};

// How many bytes a buffer for chunks has.
pub const CHUNK: usize = 65536;

// A loop over so many chunks of at most 65,536 bytes has read no more than 2^63 bytes.
pub const MOST_CHUNKS: usize = 140737488355328;

// One read: how many bytes it put at the start of the buffer, 0 at the end of the input.
#[tactic(auto, unfolding(crate::specs::Within::within))]
pub fn read_chunk(rt: HostRuntime, buffer: &mut [u8]) -> io::Result<usize>
    ensures { within (length buffer.new) result ≡ true }
{
    rt.stdin().read(buffer)
}

// Reads up to the end of the input or of the buffer: a read brings as many bytes as it will, so no range has its places.
pub fn read_whole(rt: HostRuntime, buffer: &mut [u8]) -> io::Result<usize>
    ensures { within (length buffer.new) result ≡ true }
{
    let mut at = 0;
    while at < buffer.len() {
        let more = read_chunk(rt, &mut buffer[at..])?;
        if more == 0 {
            break;
        }
        at += more;
    }
    Ok(at)
}
