// The listing call, the fault line call, and what the program prints.
ghost use Rattle.std.specs.Prelude.{◌≡◌, Ok};
ghost use Rattle.faults.specs.Faults.{told, and_then};
ghost use Rattle.listing.specs.Faults.{list_fault};
ghost use Rattle.listing.specs.Listing.{file_listing, fault_line_of, report_of, fitted, buffer_after};

use crate::fault::ListFault;
use crate::lines::{fault_text, picture_text};
use faults::Fault;
use pgm_reader::read::read;
use pictures::BytePicture;
use text::short::Text;

// The listing of a file.
fn file_text(file: &[u8]) -> Result<Text, ListFault>
    ensures { told list_fault result ≡ file_listing file.now }
{
    let header = read(file)?;
    let picture = BytePicture::new(&file[header.first..header.end], header.columns);
    Ok(picture_text(&picture)?)
}

// Writes a text to a buffer's front.
fn fit(text: &Text, out: &mut [u8]) -> Result<usize, ListFault>
    ensures answer { told list_fault result ≡ fitted out.old text.now }
    ensures buffer { out.new ≡ buffer_after out.old (Ok text.now) }
{
    Ok(text.copy_to(out)?)
}

// Writes a file's listing to a buffer's front, and answers its length. All other faults come before a buffer that is too short.
pub fn list(file: &[u8], out: &mut [u8]) -> Result<usize, ListFault>
    ensures answer { told list_fault result ≡ and_then (file_listing file.now) (fitted out.old) }
    ensures buffer { out.new ≡ buffer_after out.old (file_listing file.now) }
{
    let text = file_text(file)?;
    fit(&text, out)
}

// Writes a fault's line to a buffer's front, and answers its length.
pub fn fault_line(fault: Fault, out: &mut [u8]) -> Result<usize, ListFault>
    ensures answer { told list_fault result ≡ fitted out.old (fault_line_of fault) }
    ensures buffer { out.new ≡ buffer_after out.old (Ok (fault_line_of fault)) }
{
    fit(&fault_text(fault), out)
}

// What the program prints of a file: its listing, or the line of the fault that stopped it.
pub fn report(file: &[u8]) -> Text
    ensures { result ≡ report_of (file_listing file.now) }
{
    file_text(file).unwrap_or_else(|refusal| fault_text(refusal.into()))
}
