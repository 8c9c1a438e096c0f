// The count sheet at the limits of its length and of its fields: its text, or refusals 21 to 24.
use crate::records::faulty;
use crate::walk;
use published_lines::*;
use sheet::*;
use std::array;

// Position 1, mask 08, availability 7F and count 2.
const READING: [u8; 17] = *b"\x01\x00\x01\x01\x02\x00\x01\x08\x03\x00\x06\x59\x01\x7F\x03\x00\x02";

// The whole text of a sheet; of a long one its length and its last line.
pub fn shown(rt: HostRuntime, input: &[u8]) {
    let mut page = [0u8; PAGE];
    let end = sheet::print(input, &mut page);
    let text = front(&page, end);
    if text.len() < 100 {
        say(rt, text);
        return;
    }
    say_number(rt, b"", text.len());
    say(rt, b" bytes, ending in ");
    let last = text.len() - 15;
    say(rt, &text[last..]);
}

// A name, how many bytes of the reading there are, and the byte that stands at a place of it.
pub fn reading(rt: HostRuntime, case: &[u8]) {
    let mut input = READING;
    let place = (value(case, 2, 10) % 17) as usize;
    input[place] = byte(case, 3, 16);
    shown(rt, front(&input, value(case, 1, 10) as usize));
}

// A mask, and the availability mask.
pub fn basis(rt: HostRuntime, case: &[u8]) {
    match basis_of(byte(case, 0, 16), byte(case, 1, 16)) {
        Basis::None => say(rt, b"none\n"),
        Basis::Full => say(rt, b"full\n"),
        Basis::Part => say(rt, b"part\n"),
    }
}

// 65,535 bytes are 3,855 readings; then one byte more.
fn sizes(rt: HostRuntime) {
    let input: [u8; 65536] = array::from_fn(|i| READING[i % 17]);
    say(rt, b"sheet, 3,855 readings: ");
    shown(rt, front(&input, 65535));
    say(rt, b"sheet, one byte more: ");
    shown(rt, &input);
}

// Fields and their order: where two refusals apply, the earliest field, then the lowest number.
pub fn print(rt: HostRuntime) {
    walk(
        rt,
        faulty(),
        b"
reading;sheet, #: |position 0;17;3;00|position 1;17;3;01|position 5;17;3;05|position 6;17;3;06|mask 80;17;7;80|\
count FF02;17;15;FF|tag 2 in place of 1;17;0;02|tag 9 in place of 2;17;4;09|length 0 of the first field;17;2;00|\
length 2 of the second field;17;6;02|length 5 of the third field;17;10;05|length 7 of the third field;17;10;07|\
response 58;17;11;58|response 59 02;17;12;02|format 02;17;14;02|format 04;17;14;04|availability 7E;17;13;7E|
page;sheet, tag 9, and more bytes named than are left: |\x09\x00\xFF\x03|
page;sheet, two bytes of position 6: |\x01\x00\x02\x06\x00|
page;sheet, position 6, and no more: |\x01\x00\x01\x06|
reading;sheet, #: |no byte;0;0;01|1 byte;1;0;01|3 bytes;3;0;01|4 bytes;4;0;01|6 bytes;6;0;01|8 bytes;8;0;01|\
16 bytes;16;0;01|17 bytes;17;0;01|
",
    );
    sizes(rt);
    let rows = b"\nbasis;basis, mask # of #: |80;7F|08;7F|8C;4B|00;7F|";
    walk(rt, faulty(), rows);
}
