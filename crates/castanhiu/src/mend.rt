// A cut sheet mended into two lent arrays.
ghost use Rattle.std.specs.Prelude.{◌≡◌};
ghost use Rattle.mending.specs.Mended.{mended_as, Mends, mended_told};

use mending::{MendedTold, mend};
use sheet::{MOST_INPUT, PAGE};

pub fn castanhiu_mend(
    input: &[u8],
    kept: &mut [u8; MOST_INPUT],
    page: &mut [u8; PAGE],
) -> MendedTold
    ensures { (result ≡ mended_told (mended_as input.now))
        × Mends input.now kept.old page.old kept.new page.new }
{
    mend(input, kept, page).into()
}
