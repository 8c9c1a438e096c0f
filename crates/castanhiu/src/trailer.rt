// The trailer record, lent: checked, served and set; only its statuses can change.
ghost use Rattle.std.specs.Prelude.{◌≡◌};
ghost use Rattle.identifiers.specs.Answers.{answer_told};
ghost use Rattle.server.specs.Server.{served_of};
ghost use Rattle.server.specs.Status.{setting_of};
ghost use Rattle.server.specs.Trailer.{checked_as};
ghost use Rattle.server.specs.Told.{reply_told};

use identifiers::AnswerTold;
use server::{ReplyTold, TrailerRecord, check, serve, set_status};

pub fn castanhiu_record_check(record: &TrailerRecord) -> AnswerTold
    ensures { result ≡ answer_told (checked_as «record».now) }
{
    check(record).into()
}

pub fn castanhiu_serve(
    record: &mut TrailerRecord,
    request: &[u8],
    functional: bool,
    response: &mut [u8],
) -> ReplyTold
    ensures { («record».new ≡ (served_of «record».old request.now functional response.old).after)
        × ((result ≡ reply_told (served_of «record».old request.now functional response.old).reply)
        × (response.new ≡ (served_of «record».old request.now functional response.old).response)) }
{
    let served = serve(*record, request, functional, response);
    let statuses = served.statuses;
    record.statuses = statuses;
    served.reply.into()
}

pub fn castanhiu_set_status(record: &mut TrailerRecord, code: u32, status: u8) -> AnswerTold
    ensures { («record».new ≡ (setting_of «record».old code status).after)
        × (result ≡ answer_told (setting_of «record».old code status).answer) }
{
    let set = set_status(*record, code, status);
    let statuses = set.statuses;
    record.statuses = statuses;
    set.answer.into()
}
