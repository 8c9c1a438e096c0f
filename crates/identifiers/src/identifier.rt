// The 29-bit identifier: P x 2^26 + R x 2^25 + DP x 2^24 + PF x 2^16 + PS x 2^8 + SA.
ghost use Rattle.std.specs.Prelude.{◌≡◌, length};
ghost use Rattle.identifiers.specs.Identifiers.{frame_passing, frame_read, read_of, written_as, target_of, read_told, written_told};

use crate::refusal::Refusal;

// The first number past the 29 bits, and what P, R, DP, PF and PS weigh.
const TOO_LARGE: u32 = 1 << 29;

const P_WEIGHT: u32 = 1 << 26;

const R_WEIGHT: u32 = 1 << 25;

const DP_WEIGHT: u32 = 1 << 24;

const PF_WEIGHT: u32 = 1 << 16;

const PS_WEIGHT: u32 = 1 << 8;

// The first PF whose PS is a group extension.
const FIRST_GROUP: u8 = 240;

// P, R, DP, PF, PS and SA.
#[repr(C)]
#[derive(Clone, Copy, Debug, Default, PartialEq, Eq)]
pub struct Identifier {
    pub priority: u8,
    pub reserved: u8,
    pub data_page: u8,
    pub format: u8,
    pub specific: u8,
    pub source: u8,
}

// What PS is.
#[derive(Clone, Copy, Debug, PartialEq, Eq)]
pub enum Target {
    Destination(u8),
    GroupExtension(u8),
}

// The reader's answer in numbers: the refusal, 0 for none, and the fields, all 0 where refused.
#[repr(C)]
#[derive(Clone, Copy)]
pub struct IdentifierReadTold {
    pub refusal: u8,
    pub fields: Identifier,
}

// The writer's answer in numbers: the refusal, 0 for none, and the identifier, 0 where refused.
#[repr(C)]
#[derive(Clone, Copy)]
pub struct IdentifierWrittenTold {
    pub refusal: u8,
    pub number: u32,
}

// Checks 2 and 3 of a number and a count of data bytes. By weights throughout, and no `to_be_bytes`: P, R and DP share a byte.
fn frame_passing(number: u32, count: usize) -> Result<Identifier, Refusal>
    ensures { result ≡ frame_passing number count }
{
    if TOO_LARGE <= number {
        return Err(Refusal::IdentifierTooLarge);
    }
    if 8 < count {
        return Err(Refusal::TooManyDataBytes);
    }
    Ok(Identifier {
        priority: (number / P_WEIGHT % 8) as u8,
        reserved: (number / R_WEIGHT % 2) as u8,
        data_page: (number / DP_WEIGHT % 2) as u8,
        format: (number / PF_WEIGHT % 256) as u8,
        specific: (number / PS_WEIGHT % 256) as u8,
        source: (number % 256) as u8,
    })
}

impl Identifier {
    // The fields of a number: refusal 2.
    pub fn read(number: u32) -> Result<Identifier, Refusal>
        ensures { result ≡ read_of number }
    {
        frame_passing(number, 0)
    }

    // The fields of a frame that is sent on: refusal 2 for its number, then 3 for its data. Both stand apart, as C hands them in.
    pub fn of_passing_frame(number: u32, data: &[u8]) -> Result<Identifier, Refusal>
        ensures { result ≡ frame_passing number (length «data».now) }
    {
        frame_passing(number, data.len())
    }

    // The fields of a frame whose content is read: the same, then 4 for R.
    pub fn of_frame(number: u32, data: &[u8]) -> Result<Identifier, Refusal>
        ensures { result ≡ frame_read number (length «data».now) }
    {
        let fields = frame_passing(number, data.len())?;
        if fields.reserved == 1 {
            return Err(Refusal::ReservedBitSet);
        }
        Ok(fields)
    }

    // The number of the fields: refusal 16 where P is over 7, R over 1 or DP over 1.
    pub fn write(self) -> Result<u32, Refusal>
        ensures { result ≡ written_as self }
    {
        if 7 < self.priority {
            return Err(Refusal::NotWritable);
        }
        if 1 < self.reserved {
            return Err(Refusal::NotWritable);
        }
        if 1 < self.data_page {
            return Err(Refusal::NotWritable);
        }
        Ok(
            self.priority as u32 * P_WEIGHT
                + self.reserved as u32 * R_WEIGHT
                + self.data_page as u32 * DP_WEIGHT
                + self.format as u32 * PF_WEIGHT
                + self.specific as u32 * PS_WEIGHT
                + self.source as u32,
        )
    }

    // PF below 240: PS is a destination. Otherwise a group extension.
    pub fn target(self) -> Target
        ensures { result ≡ target_of self }
    {
        if self.format < FIRST_GROUP {
            return Target::Destination(self.specific);
        }
        Target::GroupExtension(self.specific)
    }
}

impl From<Result<Identifier, Refusal>> for IdentifierReadTold {
    ghost from_gives = { λ answer told. told ≡ read_told answer };

    #[tactic(auto, unfolding(crate::specs::Identifiers::read_told))]
    fn from(answer: Result<Identifier, Refusal>) -> IdentifierReadTold {
        match answer {
            Ok(fields) => IdentifierReadTold { refusal: 0, fields },
            Err(why) => IdentifierReadTold {
                refusal: why.number(),
                fields: Identifier::default(),
            },
        }
    }
}

impl From<Result<u32, Refusal>> for IdentifierWrittenTold {
    ghost from_gives = { λ answer told. told ≡ written_told answer };

    #[tactic(auto, unfolding(crate::specs::Identifiers::written_told))]
    fn from(answer: Result<u32, Refusal>) -> IdentifierWrittenTold {
        match answer {
            Ok(number) => IdentifierWrittenTold { refusal: 0, number },
            Err(why) => IdentifierWrittenTold {
                refusal: why.number(),
                number: 0,
            },
        }
    }
}
