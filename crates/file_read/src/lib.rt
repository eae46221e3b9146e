// Reading a load file, form 1: bytes to a sheet.

#![tactic(auto)]

ghost use Rattle.std.specs.Prelude.{◌≡◌};
ghost use Rattle.file_read.specs.Reading.{read_of};

use domain::{Refusal, refuse};
use sheet::Sheet;

pub mod layout;
mod le;
mod read;
pub mod records;
mod shape;

// Reads a load file: its shape, then the refusals in their order, then the sheet.
pub fn read_sheet(f: &[u8]) -> Result<Sheet, Refusal>
    ensures { result ≡ read_of f.now }
{
    let sections = records::sections_of(f).ok_or(Refusal::Shape)?;
    refuse(sheet::over_count(sections.many), Refusal::Count)?;
    let s = read::sheet_of(f, sections.many, sections.start, sections.end);
    sheet::sheet_refusal(s)?;
    Ok(s)
}
