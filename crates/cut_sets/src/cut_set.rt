// The cut set: what it is made from, and what is read of it.
ghost use Rattle.std.specs.Prelude.{◌≡◌, ◌*◌, ◌≤◌, length, MatchOption};
ghost use Rattle.cut_sets.specs.Bands.{Inside, Rising, Cuts, numbered};
ghost use Rattle.cut_sets.specs.CutSums.{band_sum_of, cut_sum};
ghost use Rattle.cut_sets.specs.Painted.{painted, Paints};

use crate::band::Band;
use crate::table::BandTable;
use histogram::tally::Tally;
use rules::DistanceRule;

// Two to eight classes, with their bands in the first places: the bands rise, and each has its level inside.
// No heap: at most eight places, in memory of the cut set's own, so that it is `Copy`. No model: the places behind the last band do
// not follow from the bands.
#[derive(Clone, Copy)]
pub struct CutSet {
    classes: usize,
    bands: BandTable,
    ghost some: { 2 ≤ classes },
    ghost few: { classes ≤ 8 },
    ghost inside: { Inside classes bands.places },
    ghost rising: { Rising classes bands.places },
}

// What one band adds to the sum.
fn band_sum<R: DistanceRule>(rule: &R, tally: &Tally, band: Band) -> u64
    ensures value { result ≡ band_sum_of (R.DistanceRule.table rule.now) tally.now band }
    ensures bound { result ≤ 65536 * 65025 }
{
    let histogram = tally.histogram();
    // A loop: as a chain over a range with both its ends, neither that the sum fits nor its value could be proved.
    let mut sum = 0;
    for level in band.low..=band.high {
        sum += u64::from(histogram.count(level)) * u64::from(rule.distance(level, band.level));
    }
    sum
}

impl CutSet {
    ghost use Rattle.cut_sets.specs.Sets.{bands_of};

    // The cut set of the first bands of a table; none exactly where they are no cut set.
    pub fn new(bands: BandTable, classes: usize) -> Option<CutSet>
        ensures { MatchOption result (Cuts classes bands.places → ⊥) (λ s. Cuts classes bands.places × ((s.classes ≡ classes) × (s.bands ≡ bands))) }
    {
        if classes < 2 || classes > 8 || !bands.rises(classes) {
            return None;
        }
        Some(CutSet { classes, bands })
    }

    pub fn classes(&self) -> usize
        ensures { result ≡ length (bands_of self.now) }
    {
        self.classes
    }

    fn bands(&self) -> &[Band]
        ensures { result.now ≡ bands_of self.now }
    {
        &self.bands.places[..self.classes]
    }

    // A band by its number, counted from 1; none where it is absent.
    pub fn band(&self, number: usize) -> Option<Band>
        ensures { result ≡ numbered (bands_of self.now) number }
    {
        self.bands().get(number.checked_sub(1)?).copied()
    }

    // The level that stands for a level: up to the first threshold that of the first band, above the last one that of the last.
    pub fn level_of(&self, level: u8) -> u8
        ensures value { result ≡ painted (bands_of self.now) level }
        ensures words { Paints (bands_of self.now) level result }
    {
        let bands = self.bands();
        let last = &bands[bands.len() - 1];
        bands
            .iter()
            .find(|band| level <= band.high)
            .unwrap_or(last)
            .level
    }

    // The total distance, by a rule, from the pixels in hand to the levels of their bands.
    pub fn sum<R: DistanceRule>(&self, rule: &R, tally: &Tally) -> u64
        ensures { result ≡ cut_sum (R.DistanceRule.table rule.now) tally.now (bands_of self.now) }
    {
        self.bands()
            .iter()
            .map(|band| band_sum(rule, tally, *band))
            .sum()
    }
}
