// The route of a frame: whether it is kept, and to which side it is sent on.
ghost use Rattle.std.specs.Prelude.{◌≡◌, length};
ghost use Rattle.readings.specs.Routes.{own_position, comes_from, named, onward_of, routed_by, route_of, routed_told, onward_number};

use crate::position::Position;
use identifiers::{Identifier, Refusal, Target};

// A neighbour: that from which a frame came, or to which it is sent on, and then told by its number.
#[derive(Clone, Copy, Debug, PartialEq, Eq)]
pub enum Side {
    Predecessor = 1,
    Successor = 2,
}

#[derive(Clone, Copy, Debug, PartialEq, Eq)]
pub struct Passage {
    pub kept: bool,
    pub onward: Option<Side>,
}

// The route in numbers: the refusal, 0 for none; kept; and sent on, 0 nowhere, 1 to the predecessor, 2 to the successor.
#[repr(C)]
#[derive(Clone, Copy)]
pub struct RoutedTold {
    pub refusal: u8,
    pub kept: bool,
    pub onward: u8,
}

// The own position, where it is 1 to 5 and no successor stands behind position 5. Both stand apart, as `Routes.route_of` and C have them.
fn own_position(own: u8, successor: bool) -> Option<Position>
    ensures { result ≡ own_position own successor }
{
    if (own == 5) & successor {
        return None;
    }
    Position::trailer(own)
}

// From the predecessor the source is lower, from the successor, which must exist, it is higher.
fn comes_from(side: Side, own: u8, successor: bool, source: u8) -> bool
    ensures { result ≡ comes_from side own successor source }
{
    match side {
        Side::Predecessor => source < own,
        Side::Successor => successor & (own < source),
    }
}

// The destination is the own address or the global one, or the frame is for a group.
fn names(own: u8, target: Target) -> bool
    ensures { result ≡ named own target }
{
    match target {
        Target::Destination(address) => (address == own) | (address == Position::GLOBAL),
        Target::GroupExtension(_) => true,
    }
}

// To the other side, where a neighbour exists: the predecessor always does.
#[tactic(auto, unfolding(crate::specs::Routes::onward_of, identifiers::specs::Choice::pick))]
fn onward_of(side: Side, successor: bool) -> Option<Side>
    ensures { result ≡ onward_of side successor }
{
    match side {
        Side::Predecessor => successor.then_some(Side::Successor),
        Side::Successor => Some(Side::Predecessor),
    }
}

// A frame that passes, where it is not neither kept nor sent on: with R set it is sent on all the same, and never kept.
fn routed_by(side: Side, own: Position, successor: bool, fields: Identifier) -> Option<Passage>
    ensures { result ≡ routed_by side own successor fields }
{
    let source = Position::of_address(fields.source)?;
    if !comes_from(side, own.place(), successor, source.place()) {
        return None;
    }
    Some(Passage {
        kept: (fields.reserved == 0) & names(own.address(), fields.target()),
        onward: onward_of(side, successor),
    })
}

// The route of a frame from a side, none where it is neither kept nor sent on: refusal 1 for the own position, then 2 and 3 of the frame.
pub fn route(
    side: Side,
    own: u8,
    successor: bool,
    number: u32,
    data: &[u8],
) -> Result<Option<Passage>, Refusal>
    ensures { result ≡ route_of side own successor number (length «data».now) }
{
    let position = own_position(own, successor).ok_or(Refusal::RulesBroken)?;
    // Document 01 names the form: taken apart by let .. else, and the refusal goes out at once.
    let answer = Identifier::of_passing_frame(number, data);
    let Ok(fields) = answer else {
        return Err(answer.unwrap_err());
    };
    Ok(routed_by(side, position, successor, fields))
}

// 0 nowhere.
fn onward_number(onward: Option<Side>) -> u8
    ensures { result ≡ onward_number onward }
{
    onward.map_or(0, |side| side as u8)
}

impl From<Result<Option<Passage>, Refusal>> for RoutedTold {
    ghost from_gives = { λ answer told. told ≡ routed_told answer };

    #[tactic(auto, unfolding(crate::specs::Routes::routed_told))]
    fn from(answer: Result<Option<Passage>, Refusal>) -> RoutedTold {
        match answer {
            Ok(Some(passage)) => RoutedTold {
                refusal: 0,
                kept: passage.kept,
                onward: onward_number(passage.onward),
            },
            Ok(None) => RoutedTold {
                refusal: 0,
                kept: false,
                onward: 0,
            },
            Err(why) => RoutedTold {
                refusal: why.number(),
                kept: false,
                onward: 0,
            },
        }
    }
}
