// Bands of levels.
ghost use Rattle.std.specs.Prelude.{◌≡◌, if◌then◌else◌, Some, None, nat_eq};
ghost use Rattle.histogram.specs.Totals.{count_of};
ghost use Rattle.cut_sets.specs.Bands.{mean_band_of};

use histogram::tally::Tally;

// The levels from low to high, the level that stands for them, and their pixels at the cut.
#[derive(Clone, Copy, PartialEq, Eq, Debug, Default)]
pub struct Band {
    pub low: u8,
    pub high: u8,
    pub level: u8,
    pub count: u32,
}

// The band of the levels from low to high, with the level nearest to the mean of its pixels; none where it holds no pixel.
pub fn mean_band(tally: &Tally, low: u8, high: u8) -> Option<Band>
    ensures { result ≡ (if nat_eq (count_of tally.now low high) 0 then None else Some (mean_band_of tally.now low high)) }
{
    let sums = tally.sums(low, high);
    let level = sums.nearest_level()?;
    Some(Band {
        low,
        high,
        level,
        count: sums.count(),
    })
}
