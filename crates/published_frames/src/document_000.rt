// Document 000: frames offered to a node, what it says to them and the message that it shows; messages cut into frames, and read back.
ghost use Rattle.std.specs.Prelude.{◌≡◌, ◌%◌};
ghost use Rattle.receiver.specs.Nodes.{start_of};
ghost use Rattle.receiver.specs.Lent.{node_in, numbers_of, lent_received, lent_buffer};

use identifiers::Refusal;
use published_lines::*;
use receiver::*;
use std::array;

const FUNCTIONAL: u32 = 0x18CDFFEB;

const PRESENCE: [u8; 4] = *b"\x05\x02\x3E\x00";

// The two frames of the 11-byte request of document 01.
const FIRST: [u8; 8] = *b"\x05\x10\x0B\x22\xF1\x90\xF1\x87";

const SECOND: [u8; 8] = *b"\x05\x21\xF1\x8C\xF1\x95\xF1\x97";

// Nothing handed out, with flow control due, is a reception opened. `OutcomeTold` is of the C interface: its kinds are numbers.
fn accepted(rt: HostRuntime, told: OutcomeTold) {
    if told.functional {
        say(rt, b"functional ");
    }
    if (told.handed_out == 0) & (told.control != 0) {
        say(rt, b"opened");
    } else {
        say(
            rt,
            part(b"taken|single|train|", b'|', told.handed_out as usize),
        );
    }
    say_number(rt, b" from ", told.from as usize);
}

// The outcome in words, and the message that is shown.
fn tell<'a>(rt: HostRuntime, data: &'a [u8], buffer: &'a [u8], told: OutcomeTold) {
    if told.refusal == 0 {
        accepted(rt, told);
    } else {
        say_number(rt, b"refused ", told.refusal as usize);
    }
    let words = b"|, continue due|, overflow due|";
    say(rt, part(words, b'|', told.control as usize));
    let text = shown(data, buffer, told);
    if !text.is_empty() {
        say(rt, b", message");
        say_bytes(rt, text);
    }
    say(rt, b"\n");
}

fn offer(
    rt: HostRuntime,
    node: &mut [u32; NODE],
    buffer: &mut [u8],
    identifier: u32,
    data: &[u8],
    stamp: u32,
)
    ensures { (node.new ≡ numbers_of (lent_received (node_in node.old) buffer.old identifier «data».now stamp).node)
        × (buffer.new ≡ lent_buffer (node_in node.old) buffer.old identifier «data».now stamp) }
{
    let told = receive(node, buffer, identifier, data, stamp);
    tell(rt, data, buffer, told);
}

// A trailer that starts, with unit 5.
fn started() -> [u32; NODE]
    ensures { result ≡ numbers_of (start_of 5) }
{
    let mut node = [0; NODE];
    start(&mut node, 5);
    node
}

// A name, then frames one after the other to trailer 1 with unit 5: data (F: FIRST, S: SECOND), an identifier, a stamp, and a line.
pub fn sequence(rt: HostRuntime, case: &[u8]) {
    let mut buffer = [0u8; BUFFER];
    let mut node = started();
    for frame in case.split(|b| *b == b'/').skip(1) {
        say(rt, part(case, b'/', 0));
        say_case(rt, part(frame, b';', 3), frame);
        let identifier = value(frame, 1, 16);
        let stamp = value(frame, 2, 16);
        let data: &[u8] = match letter(frame) {
            b'F' => &FIRST,
            b'S' => &SECOND,
            _ => part(frame, b';', 0),
        };
        offer(rt, &mut node, &mut buffer, identifier, data, stamp);
    }
}

// A name, data and an identifier: the frame is offered alone, to trailer 1 with unit 5.
pub fn offered(rt: HostRuntime, case: &[u8]) {
    let mut buffer = [0u8; BUFFER];
    let mut node = started();
    let data = part(case, b';', 1);
    offer(rt, &mut node, &mut buffer, value(case, 2, 16), data, 0);
}

// The frame 3E 00 to unit 5.
fn presence(rt: HostRuntime, mut node: [u32; NODE], identifier: u32) {
    let mut buffer = [0u8; BUFFER];
    offer(rt, &mut node, &mut buffer, identifier, &PRESENCE, 0);
}

// A channel, its identifier, and its trailer: the identifier is read apart, then a frame under it is offered to the trailer.
pub fn channel(rt: HostRuntime, line: &[u8], case: &[u8]) {
    crate::document_003::read(rt, value(case, 1, 16));
    say_case(rt, line, case);
    say(rt, b"offered to its trailer: ");
    let mut node = [0; NODE];
    let _ = fresh(&mut node, byte(case, 2, 10), 5);
    presence(rt, node, value(case, 1, 16));
}

pub fn node(rt: HostRuntime, case: &[u8]) {
    let mut node = [0; NODE];
    if let Err(why) = fresh(&mut node, byte(case, 0, 10), 5) {
        refused(rt, why.number());
        say(rt, b"offered a frame: ");
    }
    presence(rt, node, FUNCTIONAL);
}

// The length, the count and the stamp of the last reception.
pub fn under_way(rt: HostRuntime, case: &[u8]) {
    let mut node = started();
    node[17] = value(case, 0, 10);
    node[18] = value(case, 1, 10);
    node[19] = value(case, 2, 10);
    presence(rt, node, FUNCTIONAL);
}

pub fn given(rt: HostRuntime, case: &[u8]) {
    let mut buffer = [0u8; 1537];
    let mut node = started();
    let length = (value(case, 0, 10) % 1538) as usize;
    offer(
        rt,
        &mut node,
        &mut buffer[..length],
        FUNCTIONAL,
        &PRESENCE,
        0,
    );
}

// The lowest byte of a number.
fn low(number: u32) -> u8
    ensures { result ≡ number % 256 }
{
    (number % 256) as u8
}

// The position of a node whose reception of the tractor is open, and the address that it takes.
pub fn hears(rt: HostRuntime, case: &[u8]) {
    let mut node = started();
    node[0] = value(case, 0, 10);
    node[2] = 11;
    match take_address(&mut node, byte(case, 1, 16)) {
        Err(why) => {
            refused(rt, why.number());
        }
        Ok(()) => {
            say_number(rt, b"own position ", low(node[0]) as usize);
            say_byte(rt, b", reception 0 of length ", low(node[2]));
            say(rt, b"\n");
        }
    }
}

// All frames of a message from the tractor to trailer 1, each 150 ms after the one before, the second byte of each said; the stamps run round.
fn read_back(rt: HostRuntime, message: &[u8]) {
    let mut buffer = [0u8; BUFFER];
    let mut node = started();
    let mut unchanged = false;
    let mut stamp: u32 = 0xFFFFFFF0;
    for number in 0..frame_count(message.len()) {
        if let Ok(piece) = cut(message, number, 0, 1, 5) {
            let data = piece.data;
            say_byte(rt, b" ", data[1]);
            let frame = front(&data, piece.length as usize);
            let told = receive(&mut node, &mut buffer, piece.identifier, frame, stamp);
            unchanged = shown(frame, &buffer, told) == message;
            stamp = stamp.wrapping_add(150);
        }
    }
    if unchanged {
        say(rt, b" read back unchanged\n");
    } else {
        say(rt, b" not read\n");
    }
}

// The length of a message of bytes 0, 1, .. 250 and 0, 1, .. again.
pub fn message(rt: HostRuntime, case: &[u8]) {
    let message: [u8; 256] = array::from_fn(|i| (i % 251) as u8);
    read_back(rt, front(&message, value(case, 0, 10) as usize));
}

fn frame(rt: HostRuntime, piece: Result<FrameCut, Refusal>) {
    match piece {
        Err(why) => {
            refused(rt, why.number());
        }
        Ok(piece) => {
            let data = piece.data;
            say_long(rt, piece.identifier);
            say_bytes(rt, front(&data, piece.length as usize));
            say(rt, b"\n");
        }
    }
}

// The number of a frame, the length of its message of bytes AA, and the positions from and to.
pub fn piece(rt: HostRuntime, case: &[u8]) {
    let message = [0xAAu8; 256];
    let text = front(&message, value(case, 1, 10) as usize);
    let from = byte(case, 2, 10);
    let to = byte(case, 3, 10);
    frame(rt, cut(text, value(case, 0, 10) as usize, from, to, 5));
}

// Continue or overflow, and the positions from and to.
pub fn due(rt: HostRuntime, case: &[u8]) {
    let control = match letter(case) {
        b'c' => Control::Continue,
        _ => Control::Overflow,
    };
    let from = byte(case, 1, 10);
    frame(rt, flow_control(control, from, byte(case, 2, 10), 5));
}
