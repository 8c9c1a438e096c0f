// The page of one mask: its ranked readings, lowest count first, and the excluded ones behind them.
ghost use Rattle.std.specs.Prelude.{◌≡◌, true, ◌++◌, ℕ, ◌+◌, ◌*◌, ◌≤◌, ◌<◌, length, get_or};
ghost use Rattle.identifiers.specs.Bytes.{Puts};
ghost use Rattle.order.specs.Order.{key_in, most_places};
ghost use Rattle.sheet.specs.Readings.{readings_in, reading_of};
ghost use Rattle.sheet.specs.Text.{header};
ghost use Rattle.sheet.specs.Ranked.{asks, places_of, ranked, excluded, lines_at, ranked_text};
ghost use Rattle.sheet.specs.Standing.{standing_of};

use crate::basis::{Basis, basis_of};
use crate::printing::{PAGE, put_header, put_lines, put_refusal};
use crate::reader::read_sheet;
use crate::reading::{CountReading, READING_SIZE, reading_of};
use order::{MOST_PLACES, sort};

// Where excluded readings stand: behind every count. A number and no Option, since `order::sort` goes by numbers.
const BEHIND: u32 = 65536;

#[tactic(auto, unfolding(crate::specs::Ranked::is_full, crate::specs::Standing::standing_of, identifiers::specs::Choice::pick))]
fn standing(reading: CountReading) -> u32
    requires { reading.count < 65536 }
    ensures { result ≡ standing_of reading }
{
    let count = reading.count as u32;
    match basis_of(reading.mask, reading.available) {
        Basis::Full => count,
        Basis::None | Basis::Part => BEHIND,
    }
}

// The places of the readings of the mask, in the order of the sheet, and where each of them stands.
// `standings` is looked up by place, so these are no parallel arrays; with no heap the places found have their number beside them.
#[tactic(auto, unfolding(crate::specs::Readings::readings_in))]
fn gather(input: &[u8], mask: u8, standings: &mut [u32], places: &mut [u16]) -> usize
    requires { (readings_in input.now ≤ most_places) × ((length standings.old ≡ most_places) × (length places.old ≡ most_places)) }
    ensures puts { Puts places.old 0 (places_of (asks mask) input.now) result places.new }
    ensures by_index { (k : ℕ) → k < readings_in input.now → asks mask (reading_of input.now k) ≡ true → key_in standings.new k ≡ standing_of (reading_of input.now k) }
{
    let mut found = 0;
    for (place, bytes) in input.chunks_exact(READING_SIZE).enumerate() {
        let reading = reading_of(bytes);
        if reading.mask == mask {
            standings[place] = standing(reading);
            places[found] = place as u16;
            found += 1;
        }
    }
    found
}

// The lines of the readings at the places, each by `put_lines`: with a second caller of `put_line` a full sheet takes 97 microseconds
// and this page 194, so 83 and 172.
#[tactic(auto, unfolding(crate::specs::Readings::readings_in))]
fn put_places(page: &mut [u8; PAGE], start: usize, input: &[u8], places: &[u16]) -> usize
    requires { (start + 23 * length places.now ≤ length page.old) × ((i : ℕ) → i < length places.now → get_or places.now i 0 < readings_in input.now) }
    ensures { Puts page.old start (lines_at input.now places.now) result page.new }
{
    let mut at = start;
    for place in places {
        let from = READING_SIZE * *place as usize;
        at = put_lines(page, at, &input[from..from + READING_SIZE]);
    }
    at
}

fn put_ranking(page: &mut [u8; PAGE], input: &[u8], mask: u8) -> usize
    requires { (readings_in input.now ≤ most_places) × (36 + 23 * readings_in input.now ≤ length page.old) }
    ensures { Puts page.old 0 (header ++ lines_at input.now (ranked input.now mask ++ excluded input.now mask)) result page.new }
{
    let mut standings = [0; MOST_PLACES];
    let mut places = [0; MOST_PLACES];
    let found = gather(input, mask, &mut standings, &mut places);
    sort(&standings, &mut places[..found]);
    let start = put_header(page);
    put_places(page, start, input, &places[..found])
}

// Puts the page of one mask at the start of the lent page, and answers how many bytes it has.
pub fn rank(input: &[u8], mask: u8, page: &mut [u8; PAGE]) -> usize
    ensures { Puts page.old 0 (ranked_text input.now mask) result page.new }
{
    match read_sheet(input) {
        Ok(()) => put_ranking(page, input, mask),
        Err(refused) => put_refusal(page, refused),
    }
}
