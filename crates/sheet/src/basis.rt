// The footing of a count: which of the statuses asked for the trailer has at all.
ghost use Rattle.std.specs.Prelude.{◌≡◌};
ghost use Rattle.sheet.specs.Basis.{basis_of};
ghost use Rattle.sheet.specs.Text.{word_of};
ghost use Rattle.text.specs.Putting.{PutsIfFits};

use text::put;

// `None` is a word that is printed, as the other two are, and no basis that is missing.
#[derive(Clone, Copy, Debug, PartialEq, Eq)]
pub enum Basis {
    None,
    Full,
    Part,
}

#[tactic(auto, unfolding(crate::specs::Basis::basis_of, identifiers::specs::Choice::pick))]
pub fn basis_of(mask: u8, available: u8) -> Basis
    ensures { result ≡ basis_of mask available }
{
    let common = mask & available;
    if common == 0 {
        Basis::None
    } else if common == mask {
        Basis::Full
    } else {
        Basis::Part
    }
}

impl Basis {
    // Put in each case: as a text that is handed out the three would stand in a table, and on Arm an archive has no constants but the index
    // for unwinding.
    #[tactic(auto, unfolding(crate::specs::Text::word_of))]
    pub(crate) fn put_word(self, page: &mut [u8], at: usize) -> usize
        ensures { PutsIfFits page.old at (word_of self) result page.new }
    {
        match self {
            Basis::None => put(page, at, b"none"),
            Basis::Full => put(page, at, b"full"),
            Basis::Part => put(page, at, b"part"),
        }
    }
}
