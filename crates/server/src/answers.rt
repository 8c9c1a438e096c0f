// The bytes of an answer, written from the start of the response.
ghost use Rattle.std.specs.Prelude.{◌≡◌, false, ◌∷◌, ◌≤◌, length, Ok};
ghost use Rattle.identifiers.specs.Bytes.{Puts};
ghost use Rattle.server.specs.Codes.{code_number};
ghost use Rattle.server.specs.Faults.{count_listed, two_bytes, report_of};
ghost use Rattle.server.specs.Server.{negative_of, negative_bytes, positive_of};

use crate::codes::NegativeCode;
use crate::faults::{count_listed, put_two};
use crate::requests::{Request, RequestBytes};
use crate::sound::Sound;

pub fn put_negative(response: &mut [u8; 255], service: u8, code: NegativeCode) -> usize
    ensures { Puts response.old 0 (negative_bytes service (code_number code)) result response.new }
{
    response[0] = 0x7F;
    response[1] = service;
    response[2] = code.number();
    3
}

impl Sound<'_> {
    fn put_count(&self, mask: u8, response: &mut [u8; 255]) -> usize
        ensures { Puts response.old 0 (0x59 ∷ 0x01 ∷ self.now.record.now.availability ∷ 0x03 ∷ two_bytes (count_listed self.now.record.now false mask)) result response.new }
    {
        let n = count_listed(self.statuses(), false, mask);
        response[0] = 0x59;
        response[1] = 0x01;
        response[2] = self.record.availability;
        response[3] = 0x03;
        put_two(response, 4, n as u16)
    }

    // A number and a flag for the two lists, as `Demand2Services.all_listed` speaks of them.
    fn put_list(&self, sub: u8, all: bool, mask: u8, response: &mut [u8; 255]) -> usize
        ensures { Puts response.old 0 (0x59 ∷ sub ∷ self.now.record.now.availability ∷ report_of self.now.record.now all mask) result response.new }
    {
        response[0] = 0x59;
        response[1] = sub;
        response[2] = self.record.availability;
        self.put_report(all, mask, response, 3)
    }

    // Asked and request stand apart, as `Server.negative_of` and `Server.positive_of` have them.
    pub fn put_positive(
        &self,
        asked: Request,
        request: RequestBytes,
        response: &mut [u8; 255],
    ) -> usize
        requires { negative_of self.now.record.now (Ok asked) request.bytes.now ≡ 0 }
        ensures { Puts response.old 0 (positive_of self.now.record.now (Ok asked) request.entry.bytes.now) result response.new }
    {
        match asked {
            Request::ClearGroup { group: _ } => {
                response[0] = 0x54;
                1
            }
            Request::CountByMask { silent: _, mask } => self.put_count(mask, response),
            Request::ListByMask { silent: _, mask } => {
                self.put_list(0x02, false, mask, response)
            }
            Request::ListAll { silent: _ } => self.put_list(0x0A, true, 0, response),
            Request::ReadData => {
                response[0] = 0x62;
                self.put_answers(request, response, 1)
            }
            Request::TesterPresent { silent: _ } => {
                response[0] = 0x7E;
                response[1] = 0x00;
                2
            }
        }
    }
}
