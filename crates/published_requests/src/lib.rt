// Requests, records and count sheets: what the standards print, and both sides of each limit.
#![tactic(auto)]

mod records;
mod sheets;
mod tables;

use published_lines::*;
use server::TrailerRecord;

// The first letter of the row's word says what is asked of the record: a letter of a text names no closure.
fn run(rt: HostRuntime, record: TrailerRecord, row: &[u8], case: &[u8]) {
    say_case(rt, part(row, b';', 1), case);
    match letter(row) {
        b'b' => sheets::basis(rt, case),
        b'k' => records::kept(rt, record, case),
        b'l' => records::lengths(rt, record, case),
        b'p' => sheets::shown(rt, part(case, b';', 0)),
        b'r' => sheets::reading(rt, case),
        b's' => records::set(rt, record, case),
        asks => records::ask(rt, record, asks, case),
    }
}

// Each row begins with a newline, and each of its parts ends with a mark. One function for both crates would take a closure, and no
// public function may ask that it can be called.
fn walk(rt: HostRuntime, record: TrailerRecord, table: &[u8]) {
    let mut row: &[u8] = b"";
    for text in table.split(|b| *b == b'|') {
        match text {
            [] => {}
            [b'\n', words @ ..] => row = words,
            _ => run(rt, record, row, text),
        }
    }
}

pub fn print_requests(rt: HostRuntime) {
    tables::masks(rt);
    tables::services(rt);
    tables::requests(rt);
    records::print(rt);
    sheets::print(rt);
}
