// The positions of a road train: their addresses, their neighbours, and the address that a node takes.
ghost use Rattle.std.specs.Prelude.{◌≡◌};
ghost use Rattle.readings.specs.Positions.{place_of, address_of, position_at, trailer_at, position_of, successor_of, predecessor_of, start_position, taken_after, address_told};

use identifiers::Refusal;

#[derive(Clone, Copy, Debug, PartialEq, Eq)]
pub enum Position {
    Zero,
    One,
    Two,
    Three,
    Four,
    Five,
}

// The own position taken after the predecessor's address, in numbers: the refusal, 0 for none, and the own position, 0 where refused.
#[repr(C)]
#[derive(Clone, Copy)]
pub struct AddressTakenTold {
    pub refusal: u8,
    pub own: u8,
}

impl Position {
    pub const GLOBAL: u8 = 0xFF;

    pub const START: Position = Position::One;

    // The address of the towing vehicle; a trailer's is BASE less STEP for each place.
    const TOWING: u8 = 235;

    const BASE: u8 = 209;

    const STEP: u8 = 8;

    // Where a trailer starts.
    pub fn start() -> Position
        ensures { result ≡ start_position }
    {
        Position::START
    }

    pub fn of_address(address: u8) -> Option<Position>
        ensures { result ≡ position_of address }
    {
        if address == Position::TOWING {
            return Some(Position::Zero);
        }
        if Position::BASE - Position::STEP < address {
            return None;
        }
        // Changes no answer, and saves bytes: `at` has no place past 5.
        if address < Position::Five.address() {
            return None;
        }
        let below = Position::BASE - address;
        if below % Position::STEP != 0 {
            return None;
        }
        Position::at(below / Position::STEP)
    }

    pub fn address(self) -> u8
        ensures { result ≡ address_of self }
    {
        let place = self.place();
        if place == 0 {
            return Position::TOWING;
        }
        Position::BASE - Position::STEP * place
    }

    // The position of a number 0 to 5. Not `TryFrom`: an address is a position's number too, and the name says which one.
    #[tactic(auto, using(crate::proofs::LawsPositions::position_past), unfolding(crate::specs::Positions::position_at))]
    pub fn at(place: u8) -> Option<Position>
        ensures { result ≡ position_at place }
    {
        match place {
            0 => Some(Position::Zero),
            1 => Some(Position::One),
            2 => Some(Position::Two),
            3 => Some(Position::Three),
            4 => Some(Position::Four),
            5 => Some(Position::Five),
            _ => None,
        }
    }

    // The position of a number 1 to 5.
    pub fn trailer(place: u8) -> Option<Position>
        ensures { result ≡ trailer_at place }
    {
        if place == 0 {
            return None;
        }
        Position::at(place)
    }

    pub fn place(self) -> u8
        ensures { result ≡ place_of self }
    {
        self as u8
    }

    pub fn successor(self) -> Option<Position>
        ensures { result ≡ successor_of self }
    {
        Position::at(self.place() + 1)
    }

    pub fn predecessor(self) -> Option<Position>
        ensures { result ≡ predecessor_of self }
    {
        let before = self.place().checked_sub(1)?;
        Position::at(before)
    }

    // The position after that of the predecessor's SA: refusal 15 where there is none.
    pub fn after(source: u8) -> Result<Position, Refusal>
        ensures { result ≡ taken_after source }
    {
        let Some(predecessor) = Position::of_address(source) else {
            return Err(Refusal::NoAddress);
        };
        predecessor.successor().ok_or(Refusal::NoAddress)
    }
}

impl From<Result<Position, Refusal>> for AddressTakenTold {
    ghost from_gives = { λ answer told. told ≡ address_told answer };

    #[tactic(auto, unfolding(crate::specs::Positions::address_told))]
    fn from(answer: Result<Position, Refusal>) -> AddressTakenTold {
        match answer {
            Ok(own) => AddressTakenTold {
                refusal: 0,
                own: own.place(),
            },
            Err(why) => AddressTakenTold {
                refusal: why.number(),
                own: 0,
            },
        }
    }
}
