// A named case for each refusal number of document 01.
ghost use Rattle.std.specs.Prelude.{◌≡◌};
ghost use Rattle.identifiers.specs.Refusals.{number_of};

#[derive(Clone, Copy, Debug, PartialEq, Eq)]
pub enum Refusal {
    RulesBroken = 1,
    IdentifierTooLarge = 2,
    TooManyDataBytes = 3,
    ReservedBitSet = 4,
    NotDiagnostic = 5,
    NoOtherVehicle = 6,
    OtherDestination = 7,
    OtherUnit = 8,
    Malformed = 9,
    FlowControl = 10,
    OverLong = 11,
    NothingOpen = 12,
    WrongNumber = 13,
    Late = 14,
    NoAddress = 15,
    NotWritable = 16,
    WrongLength = 17,
    CodeNotHeld = 18,
    StatusOutsideMask = 19,
    NoReading = 20,
    InputTooLong = 21,
    FieldCutShort = 22,
    WrongTagOrLength = 23,
    WrongContent = 24,
    MalformedLine = 25,
}

impl Refusal {
    pub fn number(self) -> u8
        ensures { result ≡ number_of self }
    {
        self as u8
    }
}
