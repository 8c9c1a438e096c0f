// The walk from the start of the input: a whole reading is kept, and every other byte dropped.
ghost use Rattle.std.specs.Prelude.{◌≡◌};
ghost use Rattle.mending.specs.Pieces.{begins};
ghost use Rattle.mending.specs.Mended.{mended_as, Mends};

use crate::mended::Mended;
use crate::stretch::put_stretch;
use identifiers::Refusal;
use sheet::{MOST_INPUT, PAGE, READING_SIZE, read_sheet};
use text::put;

// Whether a whole valid reading begins with the first byte.
// The tag and the length of its first field are looked at first: most bytes begin none, and `read_sheet` takes long to say so of each.
#[tactic(auto, using(crate::proofs::LawsWalk::other_tag, crate::proofs::LawsWalk::other_high, crate::proofs::LawsWalk::other_low), unfolding(crate::specs::Pieces::begins, crate::specs::Pieces::is_reading, crate::specs::Pieces::accepts, identifiers::specs::Choice::both))]
fn begins(rest: &[u8]) -> bool
    ensures { result ≡ begins rest.now }
{
    let Some(reading @ [1, 0, 1, ..]) = rest.get(..READING_SIZE) else {
        return false;
    };
    read_sheet(reading).is_ok()
}

// Puts the kept readings at the start of their array, and the list of dropped stretches at the start of the page. The bytes from
// `start` to `at` are dropped and not yet listed.
// Both arrays are lent, and how much of each is used is told, as `castanhiu_mend` has it.
// A turn goes on by a whole reading or by one byte, for which a `for` is no plainer than the `while`.
pub fn mend(
    input: &[u8],
    kept: &mut [u8; MOST_INPUT],
    page: &mut [u8; PAGE],
) -> Result<Mended, Refusal>
    ensures { (result ≡ mended_as input.now) × Mends input.now kept.old page.old kept.new page.new }
{
    if MOST_INPUT < input.len() {
        return Err(Refusal::InputTooLong);
    }
    let mut at = 0;
    let mut start = 0;
    let mut end = 0;
    let mut listed = 0;
    while at < input.len() {
        let rest = &input[at..];
        if begins(rest) {
            listed = put_stretch(page, listed, start, at - start);
            end = put(kept, end, &rest[..READING_SIZE]);
            at += READING_SIZE;
            start = at;
        } else {
            at += 1;
        }
    }
    let last = put_stretch(page, listed, start, at - start);
    Ok(Mended {
        kept: end as u32,
        listed: last as u32,
    })
}
