// A frame as it is offered to a node, and for whom it is judged.
use readings::Position;

// Its identifier, its data bytes and its stamp.
#[derive(Clone, Copy)]
pub struct Offered<'a> {
    pub identifier: u32,
    pub data: &'a [u8],
    pub stamp: u32,
}

// The own position and the own unit.
#[derive(Clone, Copy, Debug, PartialEq, Eq)]
pub struct Own {
    pub position: Position,
    pub unit: u8,
}
