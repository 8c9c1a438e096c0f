// One reading of an accepted input.
ghost use Rattle.std.specs.Prelude.{◌≡◌, ◌≤◌, ◌<◌, length};
ghost use Rattle.sheet.specs.Readings.{reading_of};

use crate::fields::pair;

// How many bytes a reading has: three fields of 4, 4 and 9.
pub const READING_SIZE: usize = 17;

#[derive(Clone, Copy)]
pub struct CountReading {
    pub position: u8,
    pub mask: u8,
    pub available: u8,
    pub count: usize,
}

// What stands in a reading's own bytes.
#[tactic(auto, unfolding(crate::specs::Readings::reading_of))]
pub fn reading_of(reading: &[u8]) -> CountReading
    requires { 17 ≤ length reading.now }
    ensures { (result ≡ reading_of reading.now 0) × (result.count < 65536) }
{
    CountReading {
        position: reading[3],
        mask: reading[7],
        available: reading[13],
        count: pair(reading[15], reading[16]),
    }
}
