// The negative code of a request, by its form and then by what it asks.
ghost use Rattle.std.specs.Prelude.{◌≡◌, ◌+◌, ◌*◌, ltb, Ok};
ghost use Rattle.identifiers.specs.Choice.{pick};
ghost use Rattle.server.specs.Codes.{code_of, code_of_unread, Accepts};
ghost use Rattle.server.specs.Server.{content_of_14, content_of_22, negative_of};

use crate::codes::NegativeCode;
use crate::faults::{ALL_GROUPS, count_listed};
use crate::requests::{Request, RequestBytes, Unread, read_request};
use crate::sound::Sound;

impl From<Unread> for NegativeCode {
    ghost from_gives = { λ why code. code ≡ code_of_unread why };

    fn from(why: Unread) -> NegativeCode {
        match why {
            Unread::UnknownService => NegativeCode::ServiceNotSupported,
            Unread::TooShort => NegativeCode::IncorrectLength,
            Unread::UnknownSubFunction => NegativeCode::SubFunctionNotSupported,
            Unread::WrongLength => NegativeCode::IncorrectLength,
        }
    }
}

// A report has three bytes, and four for each code that is listed: over 255 from the 64th on.
fn content_of_19(listed: usize) -> Result<(), NegativeCode>
    ensures { code_of result ≡ pick (ltb 255 (3 + 4 * listed)) 0x14 0 }
{
    if 63 < listed {
        return Err(NegativeCode::ResponseTooLong);
    }
    Ok(())
}

impl Sound<'_> {
    fn content_of_14(&self, group: u32) -> Result<(), NegativeCode>
        ensures { code_of result ≡ content_of_14 self.now.record.now group }
    {
        if group == ALL_GROUPS || self.codes().contains(&group) {
            return Ok(());
        }
        Err(NegativeCode::RequestOutOfRange)
    }

    fn content_of_22(&self, request: RequestBytes) -> Result<(), NegativeCode>
        ensures { code_of result ≡ content_of_22 self.now.record.now request.entry.bytes.now }
    {
        let n = self.answers_length(request);
        if n == 0 {
            return Err(NegativeCode::RequestOutOfRange);
        }
        if 254 < n {
            return Err(NegativeCode::ResponseTooLong);
        }
        Ok(())
    }

    // The availability mask plays no part.
    fn content(&self, asked: Request, request: RequestBytes) -> Result<(), NegativeCode>
        ensures { code_of result ≡ negative_of self.now.record.now (Ok asked) request.entry.bytes.now }
    {
        match asked {
            Request::ClearGroup { group } => self.content_of_14(group),
            Request::ListByMask { silent: _, mask } => {
                content_of_19(count_listed(self.statuses(), false, mask))
            }
            Request::ListAll { silent: _ } => content_of_19(self.statuses().len()),
            Request::ReadData => self.content_of_22(request),
            Request::CountByMask { silent: _, mask: _ } => Ok(()),
            Request::TesterPresent { silent: _ } => Ok(()),
        }
    }

    // What a request asks where it is answered positively, else its negative code.
    pub fn accept(&self, request: RequestBytes) -> Result<Request, NegativeCode>
        ensures { Accepts self.now.record.now request.entry.bytes.now result }
    {
        let asked = read_request(request)?;
        self.content(asked, request)?;
        Ok(asked)
    }
}
