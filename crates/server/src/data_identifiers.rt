// Service 22: the data identifiers that are asked, measured and written.
ghost use Rattle.std.specs.Prelude.{◌≡◌, ◌<◌, ◌+◌, ◌*◌, ◌≤◌, length, get_or};
ghost use Rattle.identifiers.specs.Bytes.{Puts};
ghost use Rattle.server.specs.DataIdentifiers.{asked_at, data_of, identifier_and_data, answers_of};

use crate::faults::{put, put_two};
use crate::places::place_of;
use crate::requests::RequestBytes;
use crate::sound::Sound;

// The identifier that is asked at j: by number, as `asked_at` has it. Of `chunks_exact(2)` a loop knows what was handed out, but no number of a
// pair, and the proof of `answers_length` didn't close.
fn asked(request: &[u8], j: usize) -> u16
    requires { 1 + 2 * j + 1 < length request.now }
    ensures { result ≡ asked_at request.now j }
{
    let high = 1 + 2 * j;
    let low = high + 1;
    u16::from_be_bytes([request[high], request[low]])
}

impl Sound<'_> {
    // How many bytes are answered for all that are asked.
    pub fn answers_length(&self, request: RequestBytes) -> usize
        ensures { result ≡ length (answers_of self.now.record.now request.entry.bytes.now) }
    {
        let identifiers = self.identifiers();
        let mut total = 0;
        for j in 0..(request.bytes.len() - 1) / 2 {
            if let Some(k) = place_of(identifiers, &asked(request.bytes, j)) {
                total += 2 + self.record.lengths[k] as usize;
            }
        }
        total
    }

    // The data of the identifier at place k.
    fn data_at(&self, k: usize) -> &[u8]
        requires { (k < 16) × (get_or self.now.record.now.lengths k 0 ≤ 32) }
        ensures { result.now ≡ data_of self.now.record.now k }
    {
        let start = 32 * k;
        let bytes = &self.record.bytes;
        &bytes[start..start + self.record.lengths[k] as usize]
    }

    fn put_identifier_and_data(&self, k: usize, response: &mut [u8], start: usize) -> usize
        requires { (k < 16) × ((get_or self.now.record.now.lengths k 0 ≤ 32) × (start + (2 + get_or self.now.record.now.lengths k 0) ≤ length response.old)) }
        ensures { Puts response.old start (identifier_and_data self.now.record.now k) result response.new }
    {
        let at = put_two(response, start, self.record.identifiers[k]);
        put(response, at, self.data_at(k))
    }

    // Those that are held, as asked, repeats too. An identifier not held goes on to the next: two loops left by label, as document 01 asks.
    pub fn put_answers(&self, request: RequestBytes, response: &mut [u8], start: usize) -> usize
        requires { start + length (answers_of self.now.record.now request.bytes.now) ≤ length response.old }
        ensures { Puts response.old start (answers_of self.now.record.now request.entry.bytes.now) result response.new }
    {
        let mut at = start;
        'asked: for j in 0..(request.bytes.len() - 1) / 2 {
            let identifier = asked(request.bytes, j);
            for (k, held) in self.identifiers().iter().enumerate() {
                if *held == identifier {
                    at = self.put_identifier_and_data(k, response, at);
                    continue 'asked;
                }
            }
        }
        at
    }
}
