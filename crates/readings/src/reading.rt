// What a raw number of a kind says, and what two bits say.
ghost use Rattle.std.specs.Prelude.{◌≡◌};
ghost use Rattle.readings.specs.Kinds.{Sound};
ghost use Rattle.readings.specs.Readings.{without_value, in_range, measured_as, parameter_of, two_bits_of, outcome_of, value_of, two_bits_number, parameter_told, two_bits_told};

use crate::kind::{Kind, high_byte, physical, whole};
use identifiers::Refusal;

// A physical value, or why there is none. An enum of our own: document 01 names the form, "an enum whose value case carries the f32,
// other cases bare".
#[derive(Clone, Copy, Debug, PartialEq)]
pub enum Reading {
    Value(f32),
    Reserved,
    Error,
    NotAvailable,
    BeyondRange,
    Indicator,
}

// The reading, and beside it the raw number plus offset times divisor: 0 where there is no value, as document 01 says, so that it stands
// beside and not in the value's case.
#[derive(Clone, Copy)]
pub struct Measured {
    pub reading: Reading,
    pub whole: i32,
}

// A reading in numbers: the refusal, 0 for none; the outcome, 0 value, 1 reserved, 2 error, 3 not available, 4 beyond range,
// 5 indicator; the value and the whole number.
#[repr(C)]
#[derive(Clone, Copy)]
pub struct ParameterReadTold {
    pub refusal: u8,
    pub outcome: u8,
    pub value: f32,
    pub whole: i32,
}

#[derive(Clone, Copy, Debug, PartialEq, Eq)]
pub enum TwoBits {
    No,
    Yes,
    Error,
    NotAvailable,
}

// The same in numbers: the refusal, 0 for none; and 0 no, 1 yes, 2 error, 3 not available.
#[repr(C)]
#[derive(Clone, Copy)]
pub struct TwoBitsReadTold {
    pub refusal: u8,
    pub outcome: u8,
}

#[tactic(auto, unfolding(crate::specs::Readings::without_value))]
fn without_value(reading: Reading) -> Result<Measured, Refusal>
    ensures { result ≡ without_value reading }
{
    Ok(Measured { reading, whole: 0 })
}

// A raw number whose high byte is 0 to 250.
fn in_range(kind: Kind, raw: u32) -> Result<Measured, Refusal>
    requires { Sound kind }
    ensures { result ≡ in_range kind raw }
{
    if (kind.last as u32) < raw {
        return without_value(Reading::BeyondRange);
    }
    let small = raw as u16;
    let value = physical(small, kind.divisor, kind.below);
    Ok(Measured {
        reading: Reading::Value(value),
        whole: whole(small, kind.below * kind.divisor),
    })
}

#[tactic(auto, using(crate::proofs::LawsOutcomes::measured_rungs))]
fn measure(kind: Kind, raw: u32) -> Result<Measured, Refusal>
    requires { Sound kind }
    ensures { result ≡ measured_as kind raw }
{
    let high = high_byte(kind.bytes, raw);
    if high <= 250 {
        return in_range(kind, raw);
    }
    if high == 251 {
        return without_value(Reading::Indicator);
    }
    if high <= 253 {
        return without_value(Reading::Reserved);
    }
    if high == 254 {
        return without_value(Reading::Error);
    }
    if high == 255 {
        return without_value(Reading::NotAvailable);
    }
    Err(Refusal::NoReading)
}

// The reading of a raw number: refusal 20 for a kind over 7, or a raw number past its bytes. The kind is a number, since `parameter_of` is
// said of every number.
pub fn read_parameter(kind: u8, raw: u32) -> Result<Measured, Refusal>
    ensures { result ≡ parameter_of kind raw }
{
    let kind = Kind::try_from(kind)?;
    measure(kind, raw)
}

// The reading of two bits: refusal 20 over 3. By its own name and not `TryFrom`, since it is a reading, as that of a parameter.
#[tactic(auto, unfolding(crate::specs::Readings::two_bits_of))]
pub fn read_two_bits(raw: u8) -> Result<TwoBits, Refusal>
    ensures { result ≡ two_bits_of raw }
{
    match raw {
        0 => Ok(TwoBits::No),
        1 => Ok(TwoBits::Yes),
        2 => Ok(TwoBits::Error),
        3 => Ok(TwoBits::NotAvailable),
        _ => Err(Refusal::NoReading),
    }
}

impl Reading {
    // A case that carries something has no number by `as`.
    pub fn outcome(self) -> u8
        ensures { result ≡ outcome_of self }
    {
        match self {
            Reading::Value(_) => 0,
            Reading::Reserved => 1,
            Reading::Error => 2,
            Reading::NotAvailable => 3,
            Reading::BeyondRange => 4,
            Reading::Indicator => 5,
        }
    }

    // 0 where there is none.
    #[tactic(auto, unfolding(crate::specs::Readings::zero))]
    pub fn value(self) -> f32
        ensures { result ≡ value_of self }
    {
        match self {
            Reading::Value(value) => value,
            _ => 0.0,
        }
    }
}

impl TwoBits {
    pub fn number(self) -> u8
        ensures { result ≡ two_bits_number self }
    {
        self as u8
    }
}

impl From<Result<Measured, Refusal>> for ParameterReadTold {
    ghost from_gives = { λ answer told. told ≡ parameter_told answer };

    #[tactic(auto, unfolding(crate::specs::Readings::parameter_told))]
    fn from(answer: Result<Measured, Refusal>) -> ParameterReadTold {
        match answer {
            Ok(measured) => ParameterReadTold {
                refusal: 0,
                outcome: measured.reading.outcome(),
                value: measured.reading.value(),
                whole: measured.whole,
            },
            Err(why) => ParameterReadTold {
                refusal: why.number(),
                outcome: 0,
                value: 0.0,
                whole: 0,
            },
        }
    }
}

impl From<Result<TwoBits, Refusal>> for TwoBitsReadTold {
    ghost from_gives = { λ answer told. told ≡ two_bits_told answer };

    #[tactic(auto, unfolding(crate::specs::Readings::two_bits_told))]
    fn from(answer: Result<TwoBits, Refusal>) -> TwoBitsReadTold {
        match answer {
            Ok(bits) => TwoBitsReadTold {
                refusal: 0,
                outcome: bits.number(),
            },
            Err(why) => TwoBitsReadTold {
                refusal: why.number(),
                outcome: 0,
            },
        }
    }
}
