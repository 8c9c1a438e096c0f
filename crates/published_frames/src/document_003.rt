// Document 003: what PS is, addresses and their neighbours, the address that a trailer takes, identifiers, routes, and readings.
use identifiers::*;
use published_lines::*;
use readings::*;

fn target(rt: HostRuntime, fields: Identifier) {
    match fields.target() {
        Target::Destination(address) => say_byte(rt, b"destination ", address),
        Target::GroupExtension(extension) => say_byte(rt, b"group extension ", extension),
    }
    say(rt, b"\n");
}

// PF, and behind it C9.
pub fn format(rt: HostRuntime, case: &[u8]) {
    match Identifier::read(0x1800C9EB + byte(case, 0, 10) as u32 * 65536) {
        Err(why) => {
            refused(rt, why.number());
        }
        Ok(fields) => target(rt, fields),
    }
}

fn neighbour(rt: HostRuntime, words: &[u8], vehicle: Option<Position>) {
    say(rt, words);
    match vehicle {
        Some(position) => say_number(rt, b"", position.place() as usize),
        None => say(rt, b"none"),
    }
}

fn neighbours(rt: HostRuntime, position: Position) {
    say_number(rt, b"position ", position.place() as usize);
    neighbour(rt, b", predecessor ", position.predecessor());
    neighbour(rt, b", successor ", position.successor());
    say_byte(rt, b", written ", position.address());
    say(rt, b"\n");
}

pub fn address(rt: HostRuntime, case: &[u8]) {
    match Position::of_address(byte(case, 0, 16)) {
        Some(position) => neighbours(rt, position),
        None => say(rt, b"no vehicle\n"),
    }
}

pub fn taken(rt: HostRuntime, case: &[u8]) {
    match Position::after(byte(case, 0, 16)) {
        Err(why) => {
            refused(rt, why.number());
        }
        Ok(own) => {
            say_number(rt, b"own position ", own.place() as usize);
            say(rt, b"\n");
        }
    }
}

fn fields(rt: HostRuntime, fields: Identifier) {
    say_number(rt, b"P ", fields.priority as usize);
    say_number(rt, b" R ", fields.reserved as usize);
    say_number(rt, b" DP ", fields.data_page as usize);
    say_number(rt, b" PF ", fields.format as usize);
    say_byte(rt, b" PS ", fields.specific);
    say_byte(rt, b" SA ", fields.source);
    say(rt, b"\n");
}

// An identifier read apart into its fields.
pub fn read(rt: HostRuntime, number: u32) {
    say_long(rt, number);
    say(rt, b": ");
    match Identifier::read(number) {
        Err(why) => {
            refused(rt, why.number());
        }
        Ok(apart) => fields(rt, apart),
    }
}

// A name, P, R, DP, PF, PS and SA; what is written is read apart again.
pub fn written(rt: HostRuntime, case: &[u8]) {
    let fields = Identifier {
        priority: byte(case, 1, 10),
        reserved: byte(case, 2, 10),
        data_page: byte(case, 3, 10),
        format: byte(case, 4, 10),
        specific: byte(case, 5, 10),
        source: byte(case, 6, 16),
    };
    match fields.write() {
        Err(why) => {
            refused(rt, why.number());
        }
        Ok(number) => read(rt, number),
    }
}

// A frame that does not pass is neither kept nor sent on.
fn passed(rt: HostRuntime, passage: Option<Passage>) {
    if !passage.is_some_and(|passage| passage.kept) {
        say(rt, b"not ");
    }
    match passage.and_then(|passage| passage.onward) {
        None => say(rt, b"kept, sent on nowhere\n"),
        Some(Side::Predecessor) => say(rt, b"kept, sent on to the predecessor\n"),
        Some(Side::Successor) => say(rt, b"kept, sent on to the successor\n"),
    }
}

// The side that the frame comes from, its identifier, the own position, words where there is a successor, and data.
pub fn route(rt: HostRuntime, case: &[u8]) {
    let side = match letter(case) {
        b's' => Side::Successor,
        _ => Side::Predecessor,
    };
    let successor = !part(case, b';', 3).is_empty();
    let identifier = value(case, 1, 16);
    let data = part(case, b';', 4);
    match readings::route(side, byte(case, 2, 10), successor, identifier, data) {
        Err(why) => {
            refused(rt, why.number());
        }
        Ok(passage) => passed(rt, passage),
    }
}

fn reading(rt: HostRuntime, reading: Reading) {
    match reading {
        Reading::Value(_) => say(rt, b"value"),
        Reading::Reserved => say(rt, b"reserved"),
        Reading::Error => say(rt, b"error"),
        Reading::NotAvailable => say(rt, b"not available"),
        Reading::BeyondRange => say(rt, b"beyond range"),
        Reading::Indicator => say(rt, b"indicator"),
    }
}

// The whole number that a reading stands for, and what that is divided by to be the value.
fn measured(rt: HostRuntime, measured: Measured, case: &[u8]) {
    reading(rt, measured.reading);
    let given = part(case, b';', 2);
    let above = (value(part(given, b'-', 0), 0, 10) % 65536) as u16;
    let below = (value(part(given, b'-', 1), 0, 10) % 65536) as u16;
    let divisor = (value(case, 3, 10) % 65536) as u16;
    let whole = above as i32 - below as i32;
    let quotient = (above as f32 - below as f32) / divisor as f32;
    if (measured.reading.value() == quotient) & (measured.whole == whole) {
        say(rt, b", both numbers as given\n");
    } else {
        say(rt, b", another number\n");
    }
}

// A raw number and its kind, and behind them the numbers of its reading.
pub fn kind(rt: HostRuntime, case: &[u8]) {
    match read_parameter(byte(case, 1, 10), value(case, 0, 10)) {
        Err(why) => {
            refused(rt, why.number());
        }
        Ok(read) => measured(rt, read, case),
    }
}

// A raw number of two bits.
pub fn bits(rt: HostRuntime, case: &[u8]) {
    match read_two_bits(byte(case, 0, 10)) {
        Err(why) => {
            refused(rt, why.number());
        }
        Ok(TwoBits::No) => say(rt, b"no\n"),
        Ok(TwoBits::Yes) => say(rt, b"yes\n"),
        Ok(TwoBits::Error) => say(rt, b"error\n"),
        Ok(TwoBits::NotAvailable) => say(rt, b"not available\n"),
    }
}
