// Requests asked of a trailer record; the record at the limits of its rules; and the status that the host sets.
ghost use Rattle.std.specs.Prelude.{◌≡◌, [], ◌∷◌, take, replicate};
ghost use Rattle.server.specs.Server.{served_of};

use crate::walk;
use identifiers::Refusal;
use published_lines::*;
use server::*;
use std::array;

// Three fault codes with the statuses 08, 50 and 09 under the availability mask 7F, and no datum.
pub fn faulty() -> TrailerRecord
    ensures { (take 3 result.codes ≡ 0x000001 ∷ 0x123456 ∷ 0xFFFFFE ∷ [])
        × ((take 3 result.statuses ≡ 0x08 ∷ 0x50 ∷ 0x09 ∷ [])
        × ((result.count ≡ 3) × ((result.availability ≡ 0x7F) × (result.held ≡ 0)))) }
{
    let mut record = TrailerRecord {
        codes: [0; 63],
        statuses: [0; 63],
        count: 3,
        availability: 0x7F,
        identifiers: [0; 16],
        lengths: [0; 16],
        bytes: [0; 512],
        held: 0,
    };
    record.codes[0] = 0x000001;
    record.codes[1] = 0x123456;
    record.codes[2] = 0xFFFFFE;
    record.statuses[0] = 0x08;
    record.statuses[1] = 0x50;
    record.statuses[2] = 0x09;
    record
}

// An answer of up to 24 bytes is said, a longer one counted.
fn answered(rt: HostRuntime, reply: Result<Option<usize>, Refusal>, response: &[u8]) {
    match reply {
        Err(why) => say_number(rt, b" refused ", why.number() as usize),
        Ok(None) => say(rt, b" silent"),
        Ok(Some(length)) if 24 < length => {
            say_number(rt, b" ", length);
            say(rt, b" bytes that begin");
            say_bytes(rt, front(response, 4));
        }
        Ok(Some(length)) => say_bytes(rt, front(response, length)),
    }
    say(rt, b"\n");
}

// The record after a request, whose answer is said.
pub fn asked(
    rt: HostRuntime,
    record: TrailerRecord,
    request: &[u8],
    functional: bool,
) -> TrailerRecord
    ensures { result ≡ (served_of «record» request.now functional (replicate 255 0)).after }
{
    let mut response = [0u8; 255];
    let served = serve(record, request, functional, &mut response);
    answered(rt, served.reply, &response);
    let mut after = record;
    let statuses = served.statuses;
    after.statuses = statuses;
    after
}

// A request: functional, physical, or one that clears, and behind that the report of all codes. The letter is the table's, as it is
// printed; an enum would be read from it and asked once.
pub fn ask(rt: HostRuntime, record: TrailerRecord, letter: u8, case: &[u8]) {
    let after = asked(rt, record, part(case, b';', 0), letter == b'f');
    if letter == b'c' {
        say(rt, b"and then, 19 0A:");
        asked(rt, after, b"\x19\x0A", false);
    }
}

// The length of a request of service 22, with identifiers that are not held, and that of the response buffer.
pub fn lengths(rt: HostRuntime, record: TrailerRecord, case: &[u8]) {
    let mut bytes = [0u8; 256];
    bytes[0] = 0x22;
    let request = front(&bytes, value(case, 0, 10) as usize);
    let mut response = [0u8; 256];
    let room = (value(case, 1, 10) % 257) as usize;
    match serve(record, request, false, &mut response[..room]).reply {
        Err(why) => {
            refused(rt, why.number());
        }
        Ok(sent) => {
            say_number(rt, b"answered in ", sent.unwrap_or(0));
            say(rt, b"\n");
        }
    }
}

// A name; then the first letters of fields (n: how many codes there are), each with the number that the field has in place of its own.
// By number: `value` and `byte`, whose clauses speak of the k-th part, read the numbers.
pub fn kept(rt: HostRuntime, mut record: TrailerRecord, case: &[u8]) {
    for k in 0..marks(case, b';') / 2 {
        let given = byte(case, 2 * k + 2, 16);
        match letter(part(case, b';', 2 * k + 1)) {
            b'a' => record.availability = given,
            b'c' => record.codes[62] = value(case, 2 * k + 2, 16),
            b'h' => record.held = given,
            b'i' => record.identifiers[15] = given as u16,
            b'l' => record.lengths[14] = given,
            b'n' => record.count = given,
            _ => record.statuses[0] = given,
        }
    }
    match check(&record) {
        Err(why) => {
            refused(rt, why.number());
        }
        Ok(()) => say(rt, b"kept\n"),
    }
}

// Codes 0, 1, .. 62, each with the status 08.
fn codes(rt: HostRuntime) {
    let mut record = faulty();
    record.count = 63;
    record.statuses = [0x08; 63];
    record.codes = array::from_fn(|i| i as u32);
    walk(
        rt,
        record,
        b"
kept;record, #: |63 codes|64 codes;n;40|code FFFFFE;c;FFFFFE|code FFFFFF;c;FFFFFF|a code twice;c;3D|a free place;c;3D;n;3E|\
a status of the mask;c;3D;n;3E;s;7F|a status outside the mask;c;3D;n;3E;s;80|mask 7E;c;3D;n;3E;s;00;a;7E|
ask;63 codes,$:|\x19\x01\x08|\x19\x02\x08|\x19\x0A|
",
    );
}

// Identifiers 1, 2, .. 16 of one byte each; then seven data of 32 bytes and one of 14 fill 255 bytes, and one of 15 is one too many.
fn identifiers(rt: HostRuntime) {
    let mut record = faulty();
    record.held = 16;
    record.lengths = [1; 16];
    record.identifiers = array::from_fn(|i| i as u16 + 1);
    walk(
        rt,
        record,
        b"
kept;record, #: |16 identifiers|17 identifiers;h;11|an identifier twice;i;0F|a datum of 0 bytes;i;0F;h;0F;l;00|\
a datum of 32 bytes;i;0F;h;0F;l;20|a datum of 33 bytes;i;0F;h;0F;l;21|
",
    );
    record.lengths[0] = 32;
    record.lengths[1] = 14;
    record.lengths[2] = 15;
    walk(
        rt,
        record,
        b"
ask;255 bytes,$:|\x22\0\x01\0\x01\0\x01\0\x01\0\x01\0\x01\0\x01\0\x02|
ask;256 bytes,$:|\x22\0\x01\0\x01\0\x01\0\x01\0\x01\0\x01\0\x01\0\x03|
",
    );
}

// A status, and the code that it is set of.
pub fn set(rt: HostRuntime, record: TrailerRecord, case: &[u8]) {
    let done = set_status(record, value(case, 1, 16), byte(case, 0, 16));
    match done.answer {
        Err(why) => {
            refused(rt, why.number());
        }
        Ok(()) => {
            let mut after = record;
            let statuses = done.statuses;
            after.statuses = statuses;
            say(rt, b"done, 19 0A:");
            asked(rt, after, b"\x19\x0A", false);
        }
    }
}

pub fn print(rt: HostRuntime) {
    codes(rt);
    identifiers(rt);
    let mut record = faulty();
    let rows = b"\nset;set # of code #: |7F;00123456|80;00123456|80;00123455|00;00FFFFFF|";
    walk(rt, record, rows);
    record.availability = 0x7E;
    walk(rt, record, b"\nset;set # of code #: |80;00123456|");
}
