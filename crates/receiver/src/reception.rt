// The reception of one vehicle, closed, or open with its length, the consecutive frames taken and the last stamp; and its part of the buffer.
ghost use Rattle.std.specs.Prelude.{◌≡◌, ◌<◌, ◌≤◌};
ghost use Rattle.readings.specs.Positions.{place_of};
ghost use Rattle.identifiers.specs.Choice.{both};
ghost use Rattle.receiver.specs.Receptions.{sound_reception, region_at};
ghost use Rattle.receiver.specs.Lent.{in_bytes};

use readings::Position;

// The bytes of a reception buffer: 256 for each position.
pub const BUFFER: usize = 1536;

// Closed where all are 0, and no Option: `castanhiu_node` has three numbers for each, as `Lent.node_in` reads them.
#[derive(Clone, Copy, Debug, PartialEq, Eq)]
pub struct Reception {
    pub length: u32,
    pub taken: u32,
    pub last: u32,
}

impl Reception {
    pub const CLOSED: Reception = Reception {
        length: 0,
        taken: 0,
        last: 0,
    };

    // Closed in its one form, or open with 7 to 255 bytes of which some are left.
    #[tactic(auto, unfolding(crate::specs::Receptions::sound_reception, crate::specs::Lent::in_bytes, identifiers::specs::Choice::pick, identifiers::specs::Choice::both))]
    pub fn is_sound(self) -> bool
        ensures { result ≡ both (in_bytes self) (sound_reception self) }
    {
        let length = self.length as usize;
        let taken = self.taken as usize;
        if length == 0 {
            return taken == 0 && self.last == 0;
        }
        (7..=255).contains(&length) && 5 + 6 * taken < length
    }
}

// The place of its reception among those of a node.
pub fn place(position: Position) -> usize
    ensures { (result ≡ place_of position) × (result < 6) }
{
    position.place() as usize
}

// Where its bytes begin in the buffer.
#[tactic(auto, unfolding(crate::specs::Receptions::region_at))]
pub fn region(position: Position) -> usize
    ensures { (result ≡ region_at position) × (result ≤ 1280) }
{
    256 * place(position)
}
