// What reading a sheet answers: accepted, or a refusal with the offset of a field; and that in numbers.
ghost use Rattle.std.specs.Prelude.{◌≡◌};
ghost use Rattle.sheet.specs.Sheets.{sheet_read_told};

use identifiers::Refusal;

#[derive(Clone, Copy, Debug, PartialEq, Eq)]
pub struct RefusedAt {
    pub refusal: Refusal,
    pub offset: usize,
}

// The refusal, 0 for none, and the offset, 0 where accepted.
#[repr(C)]
#[derive(Clone, Copy)]
pub struct SheetReadTold {
    pub refusal: u8,
    pub offset: usize,
}

impl From<Result<(), RefusedAt>> for SheetReadTold {
    ghost from_gives = { λ read told. told ≡ sheet_read_told read };

    #[tactic(auto, unfolding(crate::specs::Sheets::sheet_read_told))]
    fn from(read: Result<(), RefusedAt>) -> SheetReadTold {
        match read {
            Ok(()) => SheetReadTold {
                refusal: 0,
                offset: 0,
            },
            Err(refused) => SheetReadTold {
                refusal: refused.refusal.number(),
                offset: refused.offset,
            },
        }
    }
}
