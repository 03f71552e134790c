// Otsu's threshold, exactly.
#![tactic(auto)]

ghost use Rattle.std.specs.Prelude.{◌≡◌, ◌+◌, ◌-◌, ◌*◌, ◌^◌, ◌<◌, ◌≤◌, ltb, length, IfSome, if◌then◌else◌, Some, None, nat_lt};
ghost use Rattle.std.specs.Option.{option_map};
ghost use Rattle.histogram.specs.Counts.{occupied, lowest, highest};
ghost use Rattle.cut_sets.specs.Sets.{bands_of};
ghost use Rattle.otsu.specs.Otsu.{Otsu, otsu_level, otsu_bands};
ghost use Rattle.otsu.specs.Search.{Range};

use cut_sets::band::mean_band;
use cut_sets::cut_set::CutSet;
use cut_sets::table::BandTable;
use histogram::histogram::Extent;
use histogram::tally::Tally;

// A fraction of whole numbers.
// No `Ord`: its `Eq` would have to say that 1/2 is 2/4, and a single `<` is all that the search asks.
#[derive(Clone, Copy)]
struct Ratio {
    num: u64,
    den: u64,
    ghost positive: { 0 < den },
    ghost small: { den ≤ 2 ^ 30 },
}

impl Ratio {
    // Whether this is less than another: whole parts first, then the cross products of the remainders, so that 64 bits do.
    fn below(self, other: Ratio) -> bool
        ensures { result ≡ nat_lt (self.num * other.den) (other.num * self.den) }
    {
        let whole = self.num / self.den;
        let other_whole = other.num / other.den;
        if whole == other_whole {
            self.num % self.den * other.den < other.num % other.den * self.den
        } else {
            whole < other_whole
        }
    }
}

// The two classes of a threshold: the pixels up to it and those above, how many and the sum of their levels, in the criterion's letters.
// No two `BandSums`, which only a tally makes: to move a level's pixels from one to the other, `histogram` would have to hand out a
// call that can refuse.
#[derive(Clone, Copy)]
struct Classes {
    n0: u64,
    s0: u64,
    n1: u64,
    s1: u64,
    ghost some_low: { 0 < n0 },
    ghost some_high: { 0 < n1 },
    ghost few: { n0 + n1 ≤ 65536 },
    ghost dim_low: { s0 ≤ 255 * n0 },
    ghost dim_high: { s1 ≤ 255 * n1 },
}

impl Classes {
    ghost use Rattle.otsu.specs.Otsu.{n0, s0, n1, s1};

    // The classes of a threshold that has pixels on both sides.
    fn new(tally: &Tally, k: u8) -> Classes
        requires level { k < 255 }
        requires some_low { 0 < n0 tally.now k }
        requires some_high { 0 < n1 tally.now k }
        ensures n0 { result.n0 ≡ n0 tally.now k }
        ensures s0 { result.s0 ≡ s0 tally.now k }
        ensures n1 { result.n1 ≡ n1 tally.now k }
        ensures s1 { result.s1 ≡ s1 tally.now k }
    {
        let low = tally.sums(0, k);
        let high = tally.sums(k + 1, 255);
        Classes {
            n0: u64::from(low.count()),
            s0: u64::from(low.levels()),
            n1: u64::from(high.count()),
            s1: u64::from(high.levels()),
        }
    }

    // The pixels of a level, some but not all of those above, go to the lower class.
    fn raised(self, level: u8, count: u64) -> Classes
        requires some { count < self.n1 }
        requires among { count * level ≤ self.s1 }
        requires dim { self.s1 - count * level ≤ 255 * (self.n1 - count) }
        ensures n0 { result.n0 ≡ self.n0 + count }
        ensures s0 { result.s0 ≡ self.s0 + count * level }
        ensures n1 { result.n1 ≡ self.n1 - count }
        ensures s1 { result.s1 ≡ self.s1 - count * level }
    {
        let sum = count * u64::from(level);
        Classes {
            n0: self.n0 + count,
            s0: self.s0 + sum,
            n1: self.n1 - count,
            s1: self.s1 - sum,
        }
    }

    fn criterion(self) -> Ratio
        ensures num { result.num ≡ self.s0 * self.s0 * self.n1 + self.s1 * self.s1 * self.n0 }
        ensures den { result.den ≡ self.n0 * self.n1 }
    {
        Ratio {
            num: self.s0 * self.s0 * self.n1 + self.s1 * self.s1 * self.n0,
            den: self.n0 * self.n1,
        }
    }
}

// The first level from the lowest to below the highest whose criterion is largest.
fn first_largest(tally: &Tally, extent: Extent) -> u8
    requires { Range tally.now extent.lowest extent.highest }
    ensures { Otsu tally.now extent.lowest extent.highest result }
{
    let histogram = tally.histogram();
    let mut classes = Classes::new(tally, extent.lowest);
    let mut best = extent.lowest;
    let mut most = classes.criterion();
    for k in extent.lowest + 1..extent.highest {
        classes = classes.raised(k, u64::from(histogram.count(k)));
        let next = classes.criterion();
        // Only a larger one takes its place, so that the first of equals stays.
        if most.below(next) {
            best = k;
            most = next;
        }
    }
    best
}

// Otsu's threshold of the pixels in hand; none where fewer than two levels are occupied.
pub fn threshold(tally: &Tally) -> Option<u8>
    ensures value { result ≡ (if ltb (length (occupied tally.now)) 2 then None else Some (otsu_level tally.now)) }
    ensures largest { IfSome result (Otsu tally.now (lowest tally.now) (highest tally.now)) }
{
    let extent = tally.histogram().extent();
    if extent.occupied < 2 {
        return None;
    }
    Some(first_largest(tally, extent))
}

// The Otsu cut of the pixels in hand; none where fewer than two levels are occupied.
pub fn cut(tally: &Tally) -> Option<CutSet>
    ensures { option_map bands_of result ≡ (if ltb (length (occupied tally.now)) 2 then None else Some (otsu_bands tally.now)) }
{
    let k = threshold(tally)?;
    let extent = tally.histogram().extent();
    let mut bands = BandTable::new();
    bands.put(0, mean_band(tally, extent.lowest, k)?);
    bands.put(1, mean_band(tally, k + 1, extent.highest)?);
    CutSet::new(bands, 2)
}
