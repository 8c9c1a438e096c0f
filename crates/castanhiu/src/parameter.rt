// Parameter readings, and readings of two bits.
ghost use Rattle.std.specs.Prelude.{◌≡◌};
ghost use Rattle.readings.specs.Readings.{parameter_of, two_bits_of, parameter_told, two_bits_told};

use readings::{ParameterReadTold, TwoBitsReadTold, read_parameter, read_two_bits};

// The kind is a number in castanhiu.h.
pub fn castanhiu_read_parameter(kind: u8, raw: u32) -> ParameterReadTold
    ensures { result ≡ parameter_told (parameter_of kind raw) }
{
    read_parameter(kind, raw).into()
}

pub fn castanhiu_read_two_bits(raw: u8) -> TwoBitsReadTold
    ensures { result ≡ two_bits_told (two_bits_of raw) }
{
    read_two_bits(raw).into()
}
