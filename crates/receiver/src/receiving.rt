// One frame offered to a node: judged by itself, then by its vehicle's reception; the bytes written; the next node.
ghost use Rattle.std.specs.Prelude.{◌≡◌, ◌<◌};
ghost use Rattle.receiver.specs.Steps.{judged_place};
ghost use Rattle.receiver.specs.Lent.{Receives, ReceivesAs};

use crate::frame::Judged;
use crate::node::{NODE, is_sound, put_reception, reception_of};
use crate::offered::{Offered, Own};
use crate::outcome::{Outcome, OutcomeTold};
use crate::reception::{BUFFER, place};
use crate::sound::Sound;
use identifiers::Refusal;
use readings::Position;

// The place of the vehicle whose reception a judged frame is about.
fn judged_place(judged: Judged) -> usize
    ensures { (result ≡ judged_place (Ok judged)) × (result < 6) }
{
    match judged {
        Judged::Single { from, .. }
        | Judged::First { from, .. }
        | Judged::OverLong { from }
        | Judged::Consecutive { from, .. } => place(from),
    }
}

// As `receive`, the outcome not yet in numbers.
fn received(node: &mut [u32; NODE], buffer: &mut [u8], frame: Offered) -> Result<Outcome, Refusal>
    ensures { ReceivesAs node.old buffer.old frame.entry.identifier frame.entry.data.now frame.entry.stamp result node.new buffer.new }
{
    // No `ok_or(..)?`: behind it the check doesn't find that the buffer stays.
    let Some(buffer) = buffer.as_mut_array::<BUFFER>() else {
        return Err(Refusal::RulesBroken);
    };
    if !is_sound(node) {
        return Err(Refusal::RulesBroken);
    }
    let position = Position::trailer(node[0] as u8).ok_or(Refusal::RulesBroken)?;
    let unit = node[1] as u8;
    let judged = Own { position, unit }.judge(frame)?;
    let p = judged_place(judged);
    let mut sound = Sound {
        reception: reception_of(node, p),
    };
    let outcome = sound.step(buffer, frame, judged);
    put_reception(node, p, sound.reception);
    outcome
}

// A frame offered to the node, in the parts that C hands in: refusals 1 to 14, or the reception that it moves. The outcome in numbers, of which
// `Receives` and its theorems speak.
pub fn receive(
    node: &mut [u32; NODE],
    buffer: &mut [u8],
    identifier: u32,
    data: &[u8],
    stamp: u32,
) -> OutcomeTold
    ensures { Receives node.old buffer.old identifier «data».now stamp result node.new buffer.new }
{
    let frame = Offered {
        identifier,
        data,
        stamp,
    };
    received(node, buffer, frame).into()
}
