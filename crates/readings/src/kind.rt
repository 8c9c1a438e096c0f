// The kinds of readings: how many bytes, the step's divisor, how far below 0 the offset lies, and the last raw number in range.
ghost use Rattle.std.specs.Prelude.{◌≡◌, ◌*◌};
ghost use Rattle.std.proofs.Math.IntN.{sub_ℕ};
ghost use Rattle.readings.specs.Fractions.{fraction, PowerOfTwo};
ghost use Rattle.readings.specs.Kinds.{kind_numbered, high_byte};

use identifiers::Refusal;

#[derive(Clone, Copy)]
pub struct Kind {
    pub bytes: u8,
    pub divisor: u16,
    pub below: u16,
    pub last: u16,
}

impl Kind {
    const GEAR: Kind = Kind {
        bytes: 1,
        divisor: 1,
        below: 125,
        last: 250,
    };

    const PERCENT_TORQUE: Kind = Kind {
        bytes: 1,
        divisor: 1,
        below: 125,
        last: 250,
    };

    const PERCENT_LOAD: Kind = Kind {
        bytes: 1,
        divisor: 1,
        below: 0,
        last: 125,
    };

    const SPEED_LIMIT: Kind = Kind {
        bytes: 1,
        divisor: 1,
        below: 0,
        last: 250,
    };

    const VEHICLE_SPEED: Kind = Kind {
        bytes: 2,
        divisor: 256,
        below: 0,
        last: 64255,
    };

    const ENGINE_SPEED: Kind = Kind {
        bytes: 2,
        divisor: 8,
        below: 0,
        last: 64255,
    };

    const REFERENCE_TORQUE: Kind = Kind {
        bytes: 2,
        divisor: 1,
        below: 0,
        last: 64255,
    };

    const AMBIENT_TEMPERATURE: Kind = Kind {
        bytes: 2,
        divisor: 32,
        below: 273,
        last: 64255,
    };
}

// Refusal 20 for a kind over 7.
impl TryFrom<u8> for Kind {
    type Error = Refusal;

    ghost try_from_gives = { λ number kind. kind ≡ kind_numbered number };

    #[tactic(auto, unfolding(crate::specs::Kinds::kind_numbered, crate::specs::Kinds::kind_of, identifiers::specs::Choice::pick))]
    fn try_from(number: u8) -> Result<Kind, Refusal> {
        match number {
            0 => Ok(Kind::GEAR),
            1 => Ok(Kind::PERCENT_TORQUE),
            2 => Ok(Kind::PERCENT_LOAD),
            3 => Ok(Kind::SPEED_LIMIT),
            4 => Ok(Kind::VEHICLE_SPEED),
            5 => Ok(Kind::ENGINE_SPEED),
            6 => Ok(Kind::REFERENCE_TORQUE),
            7 => Ok(Kind::AMBIENT_TEMPERATURE),
            _ => Err(Refusal::NoReading),
        }
    }
}

// The byte that tells the outcome: the only one of one, the high one of two.
pub fn high_byte(bytes: u8, raw: u32) -> u32
    ensures { result ≡ high_byte bytes raw }
{
    if bytes == 1 {
        return raw;
    }
    raw / 256
}

// The raw number over the divisor, less what the offset lies below 0.
pub fn physical(raw: u16, divisor: u16, below: u16) -> f32
    requires { PowerOfTwo divisor }
    ensures { result ≡ fraction (sub_ℕ raw (below * divisor)) divisor }
{
    raw as f32 / divisor as f32 - below as f32
}

// The difference, as a signed whole number.
pub fn whole(raw: u16, base: u16) -> i32
    ensures { result ≡ sub_ℕ raw base }
{
    raw as i32 - base as i32
}
