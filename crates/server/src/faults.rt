// Services 14 and 19: the fault codes held, counted, listed and cleared.
ghost use Rattle.std.specs.Prelude.{◌≡◌, true, ◌+◌, ◌*◌, ◌≤◌, length, get_or};
ghost use Rattle.identifiers.specs.Below.{count_below, list_below};
ghost use Rattle.identifiers.specs.Bytes.{Puts};
ghost use Rattle.server.specs.Trailer.{ascending, with_statuses};
ghost use Rattle.server.specs.Faults.{listed, code_and_status, two_bytes, report_of, cleared_of};

use crate::places::{count_where, place_of};
use crate::sound::Sound;
use crate::trailer::TrailerRecord;

// The group that takes in every code.
pub const ALL_GROUPS: u32 = 0xFFFFFF;

// A flag beside the mask, as `Faults.listed` has them, of which theorems speak.
fn is_listed(all: bool, mask: u8, status: u8) -> bool
    ensures { result ≡ listed all mask status }
{
    all | (status & mask != 0)
}

pub fn count_listed(statuses: &[u8], all: bool, mask: u8) -> usize
    requires { length statuses.now ≤ 63 }
    ensures { result ≡ count_below (λ i. listed all mask (get_or statuses.now i 0)) (length statuses.now) }
{
    count_where(statuses.len(), |i| is_listed(all, mask, statuses[i]))
}

// Writes bytes from a place on, and says where the next byte goes. Buffer and place stand apart: of a struct that lends the buffer each contract would have to
// say besides that it lends the same one. It asks for room, which no public function may: so it stands here, and is not `text`'s `put`.
pub fn put(response: &mut [u8], at: usize, bytes: &[u8]) -> usize
    requires { at + length bytes.now ≤ length response.old }
    ensures { Puts response.old at bytes.now result response.new }
{
    let end = at + bytes.len();
    response[at..end].copy_from_slice(bytes);
    end
}

// A number in two bytes, high first.
pub fn put_two(response: &mut [u8], at: usize, number: u16) -> usize
    requires { at + 2 ≤ length response.old }
    ensures { Puts response.old at (two_bytes number) result response.new }
{
    put(response, at, &number.to_be_bytes())
}

// Byte by byte: as one copy of an array `19 02` takes 1.07 to 1.11 of the time of the model, so 0.85. The reach of requests is 1.1.
pub fn put_code_and_status(response: &mut [u8], at: usize, code: u32, status: u8) -> usize
    requires { at + 4 ≤ length response.old }
    ensures { Puts response.old at (code_and_status code status) result response.new }
{
    let middle = at + 1;
    let low = middle + 1;
    let last = low + 1;
    let bytes = code.to_be_bytes();
    response[at] = bytes[1];
    response[middle] = bytes[2];
    response[low] = bytes[3];
    response[last] = status;
    last + 1
}

impl Sound<'_> {
    // Writes code and status of each listed one, in order, and says where they end. Compiled into `serve`, `19 02` takes 1.10 of the time of the
    // model, the whole reach of requests, so 0.85.
    #[inline(never)]
    pub fn put_report(&self, all: bool, mask: u8, response: &mut [u8], start: usize) -> usize
        requires { start + 252 ≤ length response.old }
        ensures { Puts response.old start (report_of self.now.record.now all mask) result response.new }
    {
        let mut at = start;
        for (code, status) in self.codes().iter().zip(self.statuses()) {
            if is_listed(all, mask, *status) {
                at = put_code_and_status(response, at, *code, *status);
            }
        }
        at
    }
}

impl TrailerRecord {
    // Clears the statuses of a group. Of codes that ascend one is the group, or none, so that one status is stored, where it lies: a choice at
    // each place takes `14` 1.2 to 1.6 of the time. The rules are asked here: a `Sound` can't be held while the record is lent to be written.
    pub(crate) fn clear(&mut self, group: u32)
        requires { (self.old.count ≤ 63) × (ascending self.old.codes self.old.count ≡ true) }
        ensures { self.new ≡ with_statuses self.old (cleared_of self.old group) }
    {
        let count = self.count as usize;
        let status = 0x50 & self.availability;
        if group == ALL_GROUPS {
            self.statuses[..count].fill(status);
            return;
        }
        if let Some(place) = place_of(&self.codes[..count], &group) {
            self.statuses[place] = status;
        }
    }
}
