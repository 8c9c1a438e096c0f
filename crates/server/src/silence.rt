// Which answers are not sent.
ghost use Rattle.std.specs.Prelude.{◌≡◌, Ok};
ghost use Rattle.server.specs.Codes.{code_number};
ghost use Rattle.server.specs.Silence.{silenced, quiet_code};

use crate::codes::NegativeCode;
use crate::requests::Request;

impl Request {
    // Is a positive answer silenced by bit 7 of the sub-function.
    #[tactic(auto, unfolding(crate::specs::Silence::silenced))]
    pub fn silences(self) -> bool
        ensures { result ≡ silenced (Ok self) }
    {
        match self {
            Request::CountByMask { silent, mask: _ } => silent,
            Request::ListByMask { silent, mask: _ } => silent,
            Request::ListAll { silent } => silent,
            Request::TesterPresent { silent } => silent,
            Request::ClearGroup { group: _ } | Request::ReadData => false,
        }
    }
}

impl NegativeCode {
    // Is a functional request silent on a code.
    #[tactic(auto, unfolding(crate::specs::Silence::quiet_code, identifiers::specs::Choice::either))]
    pub fn is_quiet(self) -> bool
        ensures { result ≡ quiet_code (code_number self) }
    {
        match self {
            NegativeCode::ServiceNotSupported => true,
            NegativeCode::SubFunctionNotSupported => true,
            NegativeCode::RequestOutOfRange => true,
            NegativeCode::IncorrectLength => false,
            NegativeCode::ResponseTooLong => false,
        }
    }
}
