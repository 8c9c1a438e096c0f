// The node as it is lent: twenty numbers, the own position and the unit, then length, taken and last stamp of the reception of each of positions 0 to 5.
ghost use Rattle.std.specs.Prelude.{◌≡◌, ◌<◌};
ghost use Rattle.std.specs.List.{list_all, range_with_len};
ghost use Rattle.receiver.specs.Nodes.{reception_at, with_reception, fresh_node, start_of, fresh_of};
ghost use Rattle.receiver.specs.Lent.{node_in, numbers_of, keeps, sound_lent, lent_taken, stored};

use crate::reception::Reception;
use identifiers::Refusal;
use readings::Position;

// How many numbers a node has: a host in C lends them so, and `Receives` and the theorems of hosts/ speak of them.
pub const NODE: usize = 20;

// A unit is a byte.
const LARGEST_UNIT: u32 = 255;

// By the number of its place, and not by its position: `receptions_are_sound` goes through the numbers, which a position would only be made of.
pub fn reception_of(node: &[u32; NODE], p: usize) -> Reception
    requires { p < 6 }
    ensures { result ≡ reception_at (node_in node.now) p }
{
    let length = 2 + 3 * p;
    let taken = length + 1;
    let last = taken + 1;
    Reception {
        length: node[length],
        taken: node[taken],
        last: node[last],
    }
}

pub fn put_reception(node: &mut [u32; NODE], p: usize, reception: Reception)
    requires { p < 6 }
    ensures { node.new ≡ numbers_of (with_reception (node_in node.old) p reception) }
{
    let length = 2 + 3 * p;
    let taken = length + 1;
    let last = taken + 1;
    node[length] = reception.length;
    node[taken] = reception.taken;
    node[last] = reception.last;
}

fn receptions_are_sound(node: &[u32; NODE]) -> bool
    ensures { result ≡ list_all (keeps (node_in node.now)) (range_with_len 0 6) }
{
    (0..6).all(|p| reception_of(node, p).is_sound())
}

// The state keeps its rules: own position, unit, and each reception.
pub fn is_sound(node: &[u32; NODE]) -> bool
    ensures { result ≡ sound_lent (node_in node.now) }
{
    let own = (1 <= node[0]) & (node[0] <= 5);
    own && node[1] <= LARGEST_UNIT && receptions_are_sound(node)
}

// All receptions closed.
#[tactic(auto, unfolding(crate::specs::Lent::numbers_of, crate::specs::Lent::in_row, crate::specs::Nodes::fresh_node))]
fn put_fresh(node: &mut [u32; NODE], own: u8, unit: u8)
    ensures { node.new ≡ numbers_of (fresh_node own unit) }
{
    *node = [0; NODE];
    node[0] = own as u32;
    node[1] = unit as u32;
}

// A trailer that starts: position 1, all receptions closed.
#[tactic(auto, unfolding(crate::specs::Nodes::start_of))]
pub fn start(node: &mut [u32; NODE], unit: u8)
    ensures { node.new ≡ numbers_of (start_of unit) }
{
    put_fresh(node, 1, unit);
}

// A fresh node at a position 1 to 5: refusal 1 for another.
#[tactic(auto, unfolding(crate::specs::Nodes::fresh_of, crate::specs::Nodes::made_at, crate::specs::Nodes::done, crate::specs::Nodes::unchanged, crate::specs::Lent::stored, crate::specs::Lent::left_by))]
pub fn fresh(node: &mut [u32; NODE], own: u8, unit: u8) -> Result<(), Refusal>
    ensures { (result ≡ (fresh_of own unit).answer) × (node.new ≡ stored node.old (fresh_of own unit)) }
{
    Position::trailer(own).ok_or(Refusal::RulesBroken)?;
    put_fresh(node, own, unit);
    Ok(())
}

// The address after the predecessor's: refusal 1 for the state, then 15. A new position closes all receptions.
pub fn take_address(node: &mut [u32; NODE], source: u8) -> Result<(), Refusal>
    ensures { (result ≡ (lent_taken (node_in node.old) source).answer)
        × (node.new ≡ stored node.old (lent_taken (node_in node.old) source)) }
{
    if !is_sound(node) {
        return Err(Refusal::RulesBroken);
    }
    let own = Position::after(source)?.place();
    let unit = node[1] as u8;
    if own as u32 != node[0] {
        put_fresh(node, own, unit);
    }
    Ok(())
}
