// The identifier, read and written.
ghost use Rattle.std.specs.Prelude.{◌≡◌};
ghost use Rattle.identifiers.specs.Identifiers.{read_of, written_as, read_told, written_told};

use identifiers::{Identifier, IdentifierReadTold, IdentifierWrittenTold};

pub fn castanhiu_identifier_read(number: u32) -> IdentifierReadTold
    ensures { result ≡ read_told (read_of number) }
{
    Identifier::read(number).into()
}

pub fn castanhiu_identifier_write(fields: Identifier) -> IdentifierWrittenTold
    ensures { result ≡ written_told (written_as fields) }
{
    fields.write().into()
}
