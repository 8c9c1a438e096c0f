// The position after a vehicle's, and the route of a frame.
ghost use Rattle.std.specs.Prelude.{◌≡◌, length};
ghost use Rattle.readings.specs.Positions.{taken_after, address_told};
ghost use Rattle.readings.specs.Routes.{routed_told};
ghost use Rattle.castanhiu.specs.Numbers.{route_from};

use readings::{AddressTakenTold, RoutedTold};

#[unsafe(no_mangle)]
pub extern "C" fn castanhiu_position_after(source: u8) -> AddressTakenTold
    ensures { result ≡ address_told (taken_after source) }
{
    castanhiu::castanhiu_position_after(source)
}

// The side is a number in castanhiu.h, 0 the predecessor or 1 the successor: refusal 1 for another.
#[unsafe(no_mangle)]
pub extern "C" fn castanhiu_route(
    side: u8,
    own: u8,
    successor: bool,
    number: u32,
    data: &[u8],
) -> RoutedTold
    ensures { result ≡ routed_told (route_from side own successor number (length «data».now)) }
{
    castanhiu::castanhiu_route(side, own, successor, number, data)
}
