// The position after a vehicle's, and the route of a frame.
ghost use Rattle.std.specs.Prelude.{◌≡◌, length};
ghost use Rattle.readings.specs.Positions.{taken_after, address_told};
ghost use Rattle.readings.specs.Routes.{routed_told};
ghost use Rattle.castanhiu.specs.Numbers.{route_from};

use identifiers::Refusal;
use readings::{AddressTakenTold, Position, RoutedTold, Side, route};

pub fn castanhiu_position_after(source: u8) -> AddressTakenTold
    ensures { result ≡ address_told (taken_after source) }
{
    Position::after(source).into()
}

// The numbers of the sides, as castanhiu.h has them.
const PREDECESSOR: u8 = 0;

const SUCCESSOR: u8 = 1;

// Refusal 1 for a side of another number.
#[tactic(auto, unfolding(crate::specs::Numbers::route_from, identifiers::specs::Choice::pick))]
pub fn castanhiu_route(side: u8, own: u8, successor: bool, number: u32, data: &[u8]) -> RoutedTold
    ensures { result ≡ routed_told (route_from side own successor number (length «data».now)) }
{
    let routed = match side {
        PREDECESSOR => route(Side::Predecessor, own, successor, number, data),
        SUCCESSOR => route(Side::Successor, own, successor, number, data),
        _ => Err(Refusal::RulesBroken),
    };
    routed.into()
}
