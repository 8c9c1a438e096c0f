// The node, lent as twenty numbers: made, given an address, offered a frame.
ghost use Rattle.std.specs.Prelude.{◌≡◌};
ghost use Rattle.identifiers.specs.Answers.{answer_told};
ghost use Rattle.receiver.specs.Nodes.{start_of, fresh_of};
ghost use Rattle.receiver.specs.Lent.{node_in, numbers_of, Receives, lent_taken, stored};

use identifiers::AnswerTold;
use receiver::{NODE, OutcomeTold, fresh, receive, start, take_address};

pub fn castanhiu_start(node: &mut [u32; NODE], unit: u8)
    ensures { node.new ≡ numbers_of (start_of unit) }
{
    start(node, unit);
}

pub fn castanhiu_fresh(node: &mut [u32; NODE], own: u8, unit: u8) -> AnswerTold
    ensures { (result ≡ answer_told (fresh_of own unit).answer) × (node.new ≡ stored node.old (fresh_of own unit)) }
{
    fresh(node, own, unit).into()
}

pub fn castanhiu_take_address(node: &mut [u32; NODE], source: u8) -> AnswerTold
    ensures { (result ≡ answer_told (lent_taken (node_in node.old) source).answer)
        × (node.new ≡ stored node.old (lent_taken (node_in node.old) source)) }
{
    take_address(node, source).into()
}

pub fn castanhiu_receive(
    node: &mut [u32; NODE],
    buffer: &mut [u8],
    identifier: u32,
    data: &[u8],
    stamp: u32,
) -> OutcomeTold
    ensures { Receives node.old buffer.old identifier «data».now stamp result node.new buffer.new }
{
    receive(node, buffer, identifier, data, stamp)
}
