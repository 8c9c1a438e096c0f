// The page of one mask, put into a lent page.
ghost use Rattle.identifiers.specs.Bytes.{Puts};
ghost use Rattle.sheet.specs.Ranked.{ranked_text};

use sheet::{PAGE, rank};

pub fn castanhiu_ranking_text(input: &[u8], mask: u8, page: &mut [u8; PAGE]) -> usize
    ensures { Puts page.old 0 (ranked_text input.now mask) result page.new }
{
    rank(input, mask, page)
}
