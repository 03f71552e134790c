// The histogram of a picture.
ghost use Rattle.std.specs.Prelude.{◌≡◌, ℕ, ◌+◌, ◌^◌, ◌<◌, MatchOption, slice_index, slice_set};
ghost use Rattle.histogram.specs.Levels.{zeros};
ghost use Rattle.histogram.specs.Counts.{histogram_of, added, removed};
ghost use Rattle.histogram.specs.Totals.{pixels};
ghost use Rattle.histogram.specs.Extents.{extent_of};
ghost use Rattle.histogram.specs.Lacks.{lacking, Covers, Lacks};

use pictures::Picture;

// How many pixels there are of each level.
// No model: clauses read the one field, which has nothing to keep, and a constant with a model could not be lent.
#[derive(Clone, Copy)]
pub struct Histogram {
    pub(crate) counts: [u32; 256],
}

// How many levels are occupied, and the lowest and the highest of them; both are 0 where none is.
// No Option: both levels read 0 without a pixel, which the definitions of LO and UP say too.
#[derive(Clone, Copy)]
pub struct Extent {
    pub occupied: usize,
    pub lowest: u8,
    pub highest: u8,
}

impl Extent {
    // One occupied level more, above all others.
    fn raised(self, level: u8) -> Extent
        requires { self.occupied + 1 < 2 ^ 64 }
        ensures count { result.occupied ≡ self.occupied + 1 }
        ensures first { self.occupied ≡ 0 → result.lowest ≡ level }
        ensures later { 0 < self.occupied → result.lowest ≡ self.lowest }
        ensures last { result.highest ≡ level }
    {
        let lowest = if self.occupied == 0 {
            level
        } else {
            self.lowest
        };
        Extent {
            occupied: self.occupied + 1,
            lowest,
            highest: level,
        }
    }
}

impl Histogram {
    pub fn new() -> Histogram
        ensures { result.counts ≡ zeros }
    {
        Histogram { counts: [0; 256] }
    }

    // Counts a picture's pixels.
    pub fn of_picture<P: Picture>(picture: &P) -> Histogram
        ensures { result.counts ≡ histogram_of (P.Picture.shown picture.now).levels }
    {
        let mut histogram = Histogram::new();
        let columns = picture.columns();
        let rows = picture.rows();
        // Loops: after a closure that changes what it borrowed, a proof knows nothing of it.
        for y in 0..rows {
            for x in 0..columns {
                if let Some(level) = picture.level(x, y) {
                    histogram.put(level);
                }
            }
        }
        histogram
    }

    // One pixel more.
    fn put(&mut self, level: u8)
        requires { slice_index self.old.counts level + 1 < 2 ^ 32 }
        ensures { self.new.counts ≡ slice_set self.old.counts level (slice_index self.old.counts level + 1) }
    {
        self.counts[usize::from(level)] += 1;
    }

    // The pixels of one level.
    pub fn count(&self, level: u8) -> u32
        ensures { result ≡ slice_index self.now.counts level }
    {
        self.counts[usize::from(level)]
    }

    // How many pixels there are.
    pub fn total(&self) -> u64
        ensures { result ≡ pixels self.now.counts }
    {
        self.counts.iter().map(|count| u64::from(*count)).sum()
    }

    // The lowest level of which more pixels are wanted than there are; none where there are enough.
    pub fn lacks(&self, wanted: &Histogram) -> Option<u8>
        ensures value { result ≡ lacking self.now.counts wanted.now.counts }
        ensures lowest { MatchOption result (Covers self.now.counts wanted.now.counts) (Lacks self.now.counts wanted.now.counts) }
    {
        let level = self
            .counts
            .iter()
            .zip(wanted.counts.iter())
            .position(|(have, want)| *have < *want)?;
        Some(level as u8)
    }

    // Level by level, the counts of another histogram on top.
    pub(crate) fn add(&mut self, more: &Histogram)
        requires { (k : ℕ) → slice_index self.old.counts k + slice_index more.now.counts k < 2 ^ 32 }
        ensures { self.new.counts ≡ added self.old.counts more.now.counts }
    {
        // In place: a table made anew would be blanked first, and copied then.
        for (level, count) in more.counts.iter().enumerate() {
            self.counts[level] += *count;
        }
    }

    // Level by level, the counts of another histogram off. A function for this and the one above would take a closure with a
    // condition of its own, and be longer than both.
    pub(crate) fn subtract(&mut self, less: &Histogram)
        requires { Covers self.old.counts less.now.counts }
        ensures { self.new.counts ≡ removed self.old.counts less.now.counts }
    {
        for (level, count) in less.counts.iter().enumerate() {
            self.counts[level] -= *count;
        }
    }

    // A loop over the counts with their levels, since number, first and last come in one go.
    pub fn extent(&self) -> Extent
        ensures { result ≡ extent_of self.now.counts }
    {
        let mut extent = Extent {
            occupied: 0,
            lowest: 0,
            highest: 0,
        };
        for (level, count) in self.counts.iter().enumerate() {
            if *count > 0 {
                extent = extent.raised(level as u8);
            }
        }
        extent
    }
}
