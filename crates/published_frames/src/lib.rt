// Identifiers, addresses, readings, routes and frames: what the standards print, and both sides of each limit.
#![tactic(auto)]

mod document_000;
mod document_003;
mod tables;

use published_lines::*;

// The first letter of the row's word says what is asked: a letter of a text names no closure.
fn run(rt: HostRuntime, row: &[u8], case: &[u8]) {
    let line = part(row, b';', 1);
    say_case(rt, line, case);
    match letter(row) {
        b'a' => document_003::address(rt, case),
        b'b' => document_003::bits(rt, case),
        b'c' => document_000::channel(rt, line, case),
        b'd' => document_000::due(rt, case),
        b'f' => document_003::format(rt, case),
        b'g' => document_000::given(rt, case),
        b'h' => document_000::hears(rt, case),
        b'i' => document_003::read(rt, value(case, 1, 16)),
        b'k' => document_003::kind(rt, case),
        b'm' => document_000::message(rt, case),
        b'n' => document_000::node(rt, case),
        b'o' => document_000::offered(rt, case),
        b'p' => document_000::piece(rt, case),
        b'r' => document_003::route(rt, case),
        b's' => document_000::sequence(rt, case),
        b't' => document_003::taken(rt, case),
        b'u' => document_000::under_way(rt, case),
        _ => document_003::written(rt, case),
    }
}

// Each row begins with a newline, and each of its parts ends with a mark. One function for both crates would take a closure, and no
// public function may ask that it can be called.
fn walk(rt: HostRuntime, table: &[u8]) {
    let mut row: &[u8] = b"";
    for text in table.split(|b| *b == b'|') {
        match text {
            [] => {}
            [b'\n', words @ ..] => row = words,
            _ => run(rt, row, text),
        }
    }
}

pub fn print_frames(rt: HostRuntime) {
    tables::document_003(rt);
    tables::routes(rt);
    tables::document_000(rt);
    tables::trains(rt);
    tables::limits(rt);
}
