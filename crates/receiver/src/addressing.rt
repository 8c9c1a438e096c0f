// From whom a frame is, and whether it is for this node: checks 2 to 8, which look at no byte behind the unit.
ghost use Rattle.std.specs.Prelude.{◌≡◌};
ghost use Rattle.receiver.specs.Addressings.{unit_is, destination_of, addressed_by, addressing_of};

use crate::offered::{Offered, Own};
use identifiers::{Identifier, Refusal};
use readings::Position;

// The vehicle of a frame that checks 2 to 8 let through, and whether it is functional.
#[derive(Clone, Copy, Debug, PartialEq, Eq)]
pub struct Addressing {
    pub from: Position,
    pub functional: bool,
}

impl Own {
    #[tactic(auto, unfolding(crate::specs::Addressings::unit_is, identifiers::specs::Choice::both))]
    fn has_unit(self, data: &[u8]) -> bool
        ensures { result ≡ unit_is self.unit «data».now }
    {
        data.first() == Some(&self.unit)
    }

    #[tactic(auto, unfolding(crate::specs::Addressings::destination_of, identifiers::specs::Choice::pick))]
    fn destination(self, functional: bool) -> u8
        ensures { result ≡ destination_of self.position functional }
    {
        if functional {
            Position::GLOBAL
        } else {
            self.position.address()
        }
    }

    // Checks 5 to 8.
    #[tactic(auto, unfolding(crate::specs::Addressings::addressed_by, crate::specs::Addressings::addressed_from, crate::specs::Addressings::diagnostic, identifiers::specs::Choice::pick, identifiers::specs::Choice::both, identifiers::specs::Choice::either))]
    fn addressed_by(self, fields: Identifier, data: &[u8]) -> Result<Addressing, Refusal>
        ensures { result ≡ addressed_by self.position self.unit fields «data».now }
    {
        let functional = fields.format == 205;
        let diagnostic = fields.data_page == 0 && (functional || fields.format == 206);
        if !diagnostic {
            return Err(Refusal::NotDiagnostic);
        }
        let from = Position::of_address(fields.source).ok_or(Refusal::NoOtherVehicle)?;
        if from == self.position {
            return Err(Refusal::NoOtherVehicle);
        }
        if fields.specific != self.destination(functional) {
            return Err(Refusal::OtherDestination);
        }
        if !self.has_unit(data) {
            return Err(Refusal::OtherUnit);
        }
        Ok(Addressing { from, functional })
    }

    // Checks 2 to 8.
    #[tactic(auto, unfolding(crate::specs::Addressings::addressing_of, crate::specs::Addressings::addressed_read))]
    pub fn addressing_of(self, frame: Offered) -> Result<Addressing, Refusal>
        ensures { result ≡ addressing_of self.position self.unit frame.entry.identifier frame.entry.data.now }
    {
        let fields = Identifier::of_frame(frame.identifier, frame.data)?;
        self.addressed_by(fields, frame.data)
    }
}
