// One field of a reading: cut short, then wrong tag or length, then content.
ghost use Rattle.std.specs.Prelude.{◌≡◌, ◌+◌, ◌*◌, ◌≤◌, ◌<◌, length};
ghost use Rattle.sheet.specs.Fields.{refused_at, tag_of, size_of, sound_content, field_read};

use crate::sheet_read::RefusedAt;
use identifiers::Refusal;

// The fields of a reading, by their tags.
#[derive(Clone, Copy, Debug, PartialEq, Eq)]
pub enum Field {
    Position = 1,
    Mask = 2,
    Response = 3,
}

// Two bytes, high first.
pub fn pair(high: u8, low: u8) -> usize
    ensures { (result ≡ high * 256 + low) × (result < 65536) }
{
    u16::from_be_bytes([high, low]) as usize
}

impl Field {
    // How many bytes its content has.
    #[tactic(auto, unfolding(crate::specs::Fields::size_of, identifiers::specs::Choice::pick))]
    fn size(self) -> usize
        ensures { result ≡ size_of (tag_of self) }
    {
        match self {
            Field::Position | Field::Mask => 1,
            Field::Response => 6,
        }
    }

    // Whether its content is sound, which may have more behind it.
    #[tactic(auto, unfolding(crate::specs::Fields::sound_content, crate::specs::Fields::sound_position, crate::specs::Fields::sound_response, identifiers::specs::Choice::pick, identifiers::specs::Choice::both))]
    fn is_sound(self, content: &[u8]) -> bool
        requires { size_of (tag_of self) ≤ length content.now }
        ensures { result ≡ sound_content content.now 0 (tag_of self) }
    {
        match (self, content) {
            (Field::Position, [position, ..]) => (1..=5).contains(position),
            (Field::Mask, _) => true,
            (Field::Response, [0x59, 0x01, mask, 0x03, ..]) => server::sound_mask(*mask),
            _ => false,
        }
    }
}

fn refused(refusal: Refusal, offset: usize) -> Result<(), RefusedAt>
    ensures { result ≡ refused_at refusal offset }
{
    Err(RefusedAt { refusal, offset })
}

// The field that is to begin at an offset.
#[tactic(auto, unfolding(crate::specs::Fields::field_read, crate::specs::Fields::cut_short, crate::specs::Fields::wrong_form, identifiers::specs::Choice::pick, identifiers::specs::Choice::either))]
pub fn field_read(input: &[u8], at: usize, field: Field) -> Result<(), RefusedAt>
    ensures { result ≡ field_read input.now at (tag_of field) }
{
    let Some((_, [tag, high, low, content @ ..])) = input.split_at_checked(at) else {
        return refused(Refusal::FieldCutShort, at);
    };
    let length = pair(*high, *low);
    if content.len() < length {
        return refused(Refusal::FieldCutShort, at);
    }
    if *tag != field as u8 || length != field.size() {
        return refused(Refusal::WrongTagOrLength, at);
    }
    if !field.is_sound(content) {
        return refused(Refusal::WrongContent, at);
    }
    Ok(())
}
