// The server by value: the record goes in, and its statuses come back.
ghost use Rattle.std.specs.Prelude.{◌≡◌, true, ◌≤◌, length, Some, None, Ok};
ghost use Rattle.identifiers.specs.Choice.{pick, both};
ghost use Rattle.identifiers.specs.Bytes.{written};
ghost use Rattle.server.specs.Codes.{code_number};
ghost use Rattle.server.specs.Trailer.{ascending, with_statuses};
ghost use Rattle.server.specs.Silence.{silenced, quiet_code};
ghost use Rattle.server.specs.Server.{negative_of, negative_bytes, positive_of, changed_by, wrong_lengths, served_of};
ghost use Rattle.server.specs.Told.{reply_told};

use crate::answers::put_negative;
use crate::codes::NegativeCode;
use crate::requests::{Request, RequestBytes};
use crate::sound::Sound;
use crate::trailer::{TrailerRecord, check};
use identifiers::Refusal;

// What a request leaves behind: of the record only the statuses can change.
#[derive(Clone, Copy)]
pub struct Served {
    pub statuses: [u8; 63],
    pub reply: Result<Option<usize>, Refusal>,
}

// The reply in numbers: the refusal, 0 for none; is it silent; how many bytes are sent.
#[repr(C)]
#[derive(Clone, Copy)]
pub struct ReplyTold {
    pub refusal: u8,
    pub silent: bool,
    pub length: usize,
}

impl From<Result<Option<usize>, Refusal>> for ReplyTold {
    ghost from_gives = { λ reply told. told ≡ reply_told reply };

    #[tactic(auto, unfolding(crate::specs::Told::reply_told))]
    fn from(reply: Result<Option<usize>, Refusal>) -> ReplyTold {
        let (refusal, silent, length) = match reply {
            Err(why) => (why.number(), false, 0),
            Ok(None) => (0, true, 0),
            Ok(Some(n)) => (0, false, n),
        };
        ReplyTold {
            refusal,
            silent,
            length,
        }
    }
}

fn wrong_lengths(request: usize, response: usize) -> bool
    ensures { result ≡ wrong_lengths request response }
{
    (request == 0) | (255 < request) | (response != 255)
}

// Answers a request that has a negative code: how many bytes are sent, none where it is silent.
fn answer_negatively(
    response: &mut [u8; 255],
    functional: bool,
    service: u8,
    code: NegativeCode,
) -> Option<usize>
    ensures { let quiet = both functional (quiet_code (code_number code)) in
        (result ≡ pick quiet None (Some 3)) × (response.new ≡ pick quiet response.old (written response.old 0 (negative_bytes service (code_number code)))) }
{
    if functional & code.is_quiet() {
        return None;
    }
    Some(put_negative(response, service, code))
}

impl Sound<'_> {
    // Answers a request that has none.
    fn answer_positively(
        &self,
        asked: Request,
        request: RequestBytes,
        response: &mut [u8; 255],
    ) -> Option<usize>
        requires { negative_of self.now.record.now (Ok asked) request.bytes.now ≡ 0 }
        ensures { let silent = silenced (Ok asked) in
            (result ≡ pick silent None (Some (length (positive_of self.now.record.now (Ok asked) request.entry.bytes.now))))
            × (response.new ≡ pick silent response.old (written response.old 0 (positive_of self.now.record.now (Ok asked) request.entry.bytes.now))) }
    {
        if asked.silences() {
            return None;
        }
        Some(self.put_positive(asked, request, response))
    }
}

impl TrailerRecord {
    // What a request that is answered positively changes. The rules, as at `clear`.
    fn change(&mut self, asked: Request)
        requires { (self.old.count ≤ 63) × (ascending self.old.codes self.old.count ≡ true) }
        ensures { self.new ≡ changed_by self.old (Ok asked) }
    {
        if let Request::ClearGroup { group } = asked {
            self.clear(group);
        }
    }
}

// Refusal 1 where the record breaks its rules, 17 for the lengths; else as the request is read.
// The negative code, the length and the silence are known before the first byte is written.
fn served_in(
    record: &mut TrailerRecord,
    request: &[u8],
    functional: bool,
    response: &mut [u8],
) -> Result<Option<usize>, Refusal>
    ensures { («record».new ≡ (served_of «record».old request.now functional response.old).after)
        × ((result ≡ (served_of «record».old request.now functional response.old).reply)
        × (response.new ≡ (served_of «record».old request.now functional response.old).response)) }
{
    check(record)?;
    if wrong_lengths(request.len(), response.len()) {
        return Err(Refusal::WrongLength);
    }
    let Some(buffer) = response.first_chunk_mut() else {
        return Err(Refusal::WrongLength);
    };
    let sound = Sound { record };
    let received = RequestBytes { bytes: request };
    match sound.accept(received) {
        Err(code) => Ok(answer_negatively(buffer, functional, request[0], code)),
        Ok(asked) => {
            let sent = sound.answer_positively(asked, received, buffer);
            record.change(asked);
            Ok(sent)
        }
    }
}

// Answers one request. By value, and not to a record that is lent: document 01 names the form, "one thin function takes the record by
// &mut, calls the by-value server and stores the result".
pub fn serve(
    mut record: TrailerRecord,
    request: &[u8],
    functional: bool,
    response: &mut [u8],
) -> Served
    ensures { (with_statuses «record» result.statuses ≡ (served_of «record» request.now functional response.old).after)
        × ((result.reply ≡ (served_of «record» request.now functional response.old).reply)
        × (response.new ≡ (served_of «record» request.now functional response.old).response)) }
{
    let reply = served_in(&mut record, request, functional, response);
    let statuses = record.statuses;
    Served { statuses, reply }
}
