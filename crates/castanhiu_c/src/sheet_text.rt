// The count sheet's text, printed into a lent page.
ghost use Rattle.identifiers.specs.Bytes.{Puts};
ghost use Rattle.sheet.specs.Printed.{printed};

use sheet::PAGE;

#[unsafe(no_mangle)]
pub extern "C" fn castanhiu_sheet_text(input: &[u8], page: &mut [u8; PAGE]) -> usize
    ensures { Puts page.old 0 (printed input.now) result page.new }
{
    castanhiu::castanhiu_sheet_text(input, page)
}
