// Document 000, tables 10, 11, B.3 and B.4, and requests at the limits of their services.
use crate::records::faulty;
use crate::walk;
use published_lines::*;
use server::sound_mask;
use std::array;

// Table 11: of all 256 masks those that keep the rule.
pub fn masks(rt: HostRuntime) {
    say(rt, b"000 table 11, masks that keep the rule:");
    for mask in (0..=u8::MAX).filter(|mask| sound_mask(*mask)) {
        say_byte(rt, b" ", mask);
    }
    let count = (0..=u8::MAX).filter(|mask| sound_mask(*mask)).count();
    say_number(rt, b"\n000 table 11, of 256 masks ", count);
    say(rt, b" keep the rule\n");
}

// Table B.3's identifiers and the ends of its ranges, asked of a record that holds sixteen of them; the bytes of each are its place.
fn identifiers(rt: HostRuntime) {
    let mut record = faulty();
    record.held = 16;
    let held = b"F000;F002;F187;F188;F189;F18A;F18B;F18C;F18D;F190;F191;F192;F193;F194;F195;F197";
    let lengths = b"1;1;2;2;2;3;3;3;1;17;2;2;2;2;2;5";
    record.identifiers = array::from_fn(|place| (value(held, place, 16) % 65536) as u16);
    record.lengths = array::from_fn(|place| byte(lengths, place, 10));
    record.bytes = array::from_fn(|i| (i / 32) as u8);
    walk(
        rt,
        record,
        b"
ask;000 table B.3,$:|\x22\xF0\x00|\x22\xF0\x01|\x22\xF0\x02|\x22\xF0\x0F|\x22\xF1\x87|\x22\xF1\x88|\x22\xF1\x89|\x22\xF1\x8A|\x22\xF1\x8B|\
\x22\xF1\x8C|\x22\xF1\x8D|\x22\xF1\x90|\x22\xF1\x91|\x22\xF1\x92|\x22\xF1\x93|\x22\xF1\x94|\x22\xF1\x95|\x22\xF1\x97|\x22\xF1\x9E|\
\x22\xFD\x00|\x22\xFE\xFF|\x22\xF1\x87\xF1\x9E\xF1\x8D\xF1\x87|
",
    );
}

// Table 10: the bits of a mask one by one, all of them, and none. Table B.4: the codes that the server gives, 11, 12 and 31.
pub fn services(rt: HostRuntime) {
    walk(
        rt,
        faulty(),
        b"
ask;000 table 10,$:|\x19\x01\x01|\x19\x01\x02|\x19\x01\x04|\x19\x01\x08|\x19\x01\x10|\x19\x01\x20|\x19\x01\x40|\x19\x01\x80|\x19\x01\xFF|\
\x19\x01\x00|\x19\x02\x08|\x19\x02\x80|\x19\x0A|
",
    );
    identifiers(rt);
    let rows = b"\nask;000 table B.4,$:|\x10\x01|\x19\x03\x08|\x14\x12\x34\x57|\x22\xF1\x9E|";
    walk(rt, faulty(), rows);
}

// The neighbours of the four services, unknown sub-functions, lengths, silence, and what clearing changes.
pub fn requests(rt: HostRuntime) {
    walk(
        rt,
        faulty(),
        b"
ask;request,$:|\x13\x01\x08|\x15\x01\x08|\x18\x01\x08|\x1A\x01\x08|\x21\x01\x08|\x23\x01\x08|\x3D\x01\x08|\x3F\x01\x08|
ask;request,$:|\x19\x00\x08|\x19\x03\x08|\x19\x09|\x19\x0B|\x3E\x01|\x3E\x81|
ask;request,$:|\x14\x00\x00|\x14\x00\x00\x01|\x14\x00\x00\x01\x00|\x19|\x19\x01|\x19\x01\x08|\x19\x01\x08\x00|
ask;request,$:|\x19\x02|\x19\x02\x08\x00|\x19\x0A\x08|\x22|\x22\xF1|\x22\xF1\x90\xF1|\x3E|\x3E\x00|\x3E\x00\x00|\x3E\x01\x00|
ask;request,$:|\x3E\x80|\x19\x81\x08|\x19\x8A|
functional;functional request,$:|\x3E\x00|\x3E\x80|\x10\x01|\x3E\x01|\x22\xF1\x90|\x3E|
clear;one code,$:|\x14\x12\x34\x56|
clear;all codes,$:|\x14\xFF\xFF\xFF|
clear;a code not held,$:|\x14\x12\x34\x55|
",
    );
    let mut record = faulty();
    record.availability = 0x4B;
    record.statuses[1] = 0x40;
    let rows = b"\nclear;all codes under mask 4B,$:|\x14\xFF\xFF\xFF|";
    walk(rt, record, rows);
    record.count = 0;
    walk(rt, record, b"\nclear;no code held,$:|\x14\xFF\xFF\xFF|");
    let rows =
        b"\nlengths;request of # bytes, response buffer of #: |0;255|1;255|255;255|256;255|3;254|3;256|";
    walk(rt, faulty(), rows);
}
