// A line of a log, read and written.
ghost use Rattle.std.specs.Prelude.{◌≡◌};
ghost use Rattle.identifiers.specs.Bytes.{written};
ghost use Rattle.logs.specs.Outcomes.{frame_told, frame_bytes};
ghost use Rattle.logs.specs.Lines.{line_read};
ghost use Rattle.logs.specs.Written.{line_written, text_after, line_told};

use logs::{LogFrameTold, LogLineTold, TEXT, put_data, read_line, write_line};

#[tactic(auto, using(identifiers::proofs::LawsBytes::written_none))]
pub fn castanhiu_log_read(line: &[u8], data: &mut [u8; 8]) -> LogFrameTold
    ensures { (result ≡ frame_told (line_read line.now))
        × («data».new ≡ written «data».old 0 (frame_bytes (line_read line.now))) }
{
    let read = read_line(line);
    if let Ok(Some(frame)) = read {
        let bytes = frame.data.bytes;
        put_data(&bytes, frame.data.count, data);
    }
    read.into()
}

pub fn castanhiu_log_write(
    identifier: u32,
    data: &[u8],
    stamp: u32,
    text: &mut [u8; TEXT],
) -> LogLineTold
    ensures { (result ≡ line_told (line_written identifier «data».now stamp))
        × (text.new ≡ text_after identifier «data».now stamp text.old) }
{
    write_line(identifier, data, stamp, text).into()
}
