// The mask rule: which availability masks a trailer record may have.
ghost use Rattle.std.specs.Prelude.{◌≡◌};
ghost use Rattle.server.specs.Mask.{sound_mask};

pub fn sound_mask(mask: u8) -> bool
    ensures { result ≡ sound_mask mask }
{
    (mask & 0x49 == 0x49) & (mask & 0x06 != 0x04) & ((mask & 0x30 == 0x00) | (mask & 0x30 == 0x30))
}
