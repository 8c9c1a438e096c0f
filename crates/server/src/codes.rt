// The negative codes, by the names of ISO 14229-1.
ghost use Rattle.std.specs.Prelude.{◌≡◌};
ghost use Rattle.server.specs.Codes.{code_number};

// Two checks end in IncorrectLength: it stands last, since on Arm the numbers of the others then lie in one word, and none in a table.
#[derive(Clone, Copy, Debug, PartialEq, Eq)]
pub enum NegativeCode {
    ServiceNotSupported = 0x11,
    SubFunctionNotSupported = 0x12,
    ResponseTooLong = 0x14,
    RequestOutOfRange = 0x31,
    IncorrectLength = 0x13,
}

impl NegativeCode {
    pub fn number(self) -> u8
        ensures { result ≡ code_number self }
    {
        self as u8
    }
}
