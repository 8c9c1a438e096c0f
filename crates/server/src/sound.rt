// A trailer record that keeps its rules: the places that it holds.
ghost use Rattle.std.specs.Prelude.{◌≡◌, true, take, length};
ghost use Rattle.server.specs.Trailer.{sound_record};

use crate::trailer::TrailerRecord;

// Made where the rules were tested.
#[derive(Clone, Copy)]
pub struct Sound<'a> {
    pub record: &'a TrailerRecord,
    ghost sound: { sound_record «record».now ≡ true },
}

impl Sound<'_> {
    pub fn codes(&self) -> &[u32]
        ensures { (result.now ≡ take self.now.record.now.count self.now.record.now.codes) × (length result.now ≡ self.now.record.now.count) }
    {
        &self.record.codes[..self.record.count as usize]
    }

    pub fn statuses(&self) -> &[u8]
        ensures { (result.now ≡ take self.now.record.now.count self.now.record.now.statuses) × (length result.now ≡ self.now.record.now.count) }
    {
        &self.record.statuses[..self.record.count as usize]
    }

    pub fn identifiers(&self) -> &[u16]
        ensures { (result.now ≡ take self.now.record.now.held self.now.record.now.identifiers) × (length result.now ≡ self.now.record.now.held) }
    {
        &self.record.identifiers[..self.record.held as usize]
    }
}
