// The lines of a listing.
ghost use Rattle.std.specs.Prelude.{◌≡◌};
ghost use Rattle.faults.specs.Faults.{told};
ghost use Rattle.station.specs.Faults.{station_fault};
ghost use Rattle.station.specs.States.{account_of};
ghost use Rattle.listing.specs.Classes.{two_classes_of};
ghost use Rattle.listing.specs.Listing.{listing_lines, picture_listing, fault_line_of};

use faults::Fault;
use pictures::Picture;
use rules::{DistanceRule, Squares};
use station::fault::StationFault;
use station::station::Station;
use text::short::Text;

// What is listed of a cut into two classes, besides its sum.
#[derive(Clone, Copy)]
pub(crate) struct TwoClasses {
    threshold: u8,
    low: u8,
    high: u8,
}

// The two classes of the last cut. Zeros stand for an absent band: only a station that was cut is listed.
fn two_classes<R: DistanceRule>(station: &Station<R>) -> TwoClasses
    ensures { result ≡ two_classes_of (account_of station.now).cuts }
{
    let low = station.band(1).unwrap_or_default();
    let high = station.band(2).unwrap_or_default();
    TwoClasses {
        threshold: low.high,
        low: low.level,
        high: high.level,
    }
}

// What is listed of a station after an Otsu cut with this sum. Put together as the fault's line below, and for its reason. Numbers
// widen by `as`: by `from` each would be a call to argue about.
fn station_text<R: DistanceRule>(station: &Station<R>, sum: u64) -> Text
    ensures { result ≡ listing_lines (account_of station.now) sum }
{
    let extent = station.histogram().extent();
    let mut text = Text::new();
    text.push_line(b"pixels", &[station.total() as u64]);
    text.push_line(b"range", &[extent.lowest as u64, extent.highest as u64]);
    let TwoClasses {
        threshold,
        low,
        high,
    } = two_classes(station);
    text.push_line(b"otsu", &[threshold as u64, low as u64, high as u64, sum]);
    text
}

// Lays a picture on a new station with squares, cuts it, and lists it.
pub(crate) fn picture_text<P: Picture>(picture: &P) -> Result<Text, StationFault>
    ensures { told station_fault result ≡ picture_listing (P.Picture.shown picture.now) }
{
    let mut station = Station::new(Squares);
    station.lay(picture)?;
    let otsu = station.otsu_cut()?;
    Ok(station_text(&station, otsu.sum))
}

// The line of a fault. Not by `write!`, which answers a result that no clause promises to be Ok: this call cannot fail.
pub(crate) fn fault_text(fault: Fault) -> Text
    ensures { result ≡ fault_line_of fault }
{
    let mut text = Text::new();
    text.push_line(
        b"fault",
        &[fault.layer as u64, fault.number as u64, fault.detail as u64],
    );
    text
}
