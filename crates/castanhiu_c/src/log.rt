// A line of a log, read and written.
ghost use Rattle.std.specs.Prelude.{◌≡◌};
ghost use Rattle.identifiers.specs.Bytes.{written};
ghost use Rattle.logs.specs.Outcomes.{frame_told, frame_bytes};
ghost use Rattle.logs.specs.Lines.{line_read};
ghost use Rattle.logs.specs.Written.{line_written, text_after, line_told};

use logs::{LogFrameTold, LogLineTold, TEXT};

#[unsafe(no_mangle)]
pub extern "C" fn castanhiu_log_read(line: &[u8], data: &mut [u8; 8]) -> LogFrameTold
    ensures { (result ≡ frame_told (line_read line.now))
        × («data».new ≡ written «data».old 0 (frame_bytes (line_read line.now))) }
{
    castanhiu::castanhiu_log_read(line, data)
}

#[unsafe(no_mangle)]
pub extern "C" fn castanhiu_log_write(
    identifier: u32,
    data: &[u8],
    stamp: u32,
    text: &mut [u8; TEXT],
) -> LogLineTold
    ensures { (result ≡ line_told (line_written identifier «data».now stamp))
        × (text.new ≡ text_after identifier «data».now stamp text.old) }
{
    castanhiu::castanhiu_log_write(identifier, data, stamp, text)
}
