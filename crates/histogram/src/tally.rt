// The pixels in hand.
ghost use Rattle.std.specs.Prelude.{◌≡◌, ℕ, ◌+◌, ◌≤◌, List, length, is_ok, if◌then◌else◌, Some, None, leb, nat_le};
ghost use Rattle.std.specs.Option.{option_map};
ghost use Rattle.std.specs.Result.{result_err};
ghost use Rattle.pictures.specs.Raster.{size};
ghost use Rattle.histogram.specs.Levels.{zeros};
ghost use Rattle.histogram.specs.Counts.{histogram_of, added, removed};
ghost use Rattle.histogram.specs.Totals.{pixels, count_of, level_sum};
ghost use Rattle.histogram.specs.Lacks.{lacking};

use crate::histogram::Histogram;
use crate::sums::BandSums;
use pictures::Picture;
use std::marker::Model;

// The most pixels in hand.
const MOST: usize = 65536;

// More than 65,536 pixels would be in hand.
#[derive(Clone, Copy, PartialEq, Eq, Debug)]
pub struct Overfull;

// More pixels of some level would go than are in hand; the lowest such level.
#[derive(Clone, Copy, PartialEq, Eq, Debug)]
pub struct Lacking {
    pub level: u8,
}

// A histogram of at most 65,536 pixels, with their total: the pixels that a station has in hand. A clause sees the 256 counts.
#[derive(Clone, Copy)]
pub struct Tally {
    histogram: Histogram,
    total: u32,
}

impl Model for Tally {
    ghost use Rattle.std.specs.Prelude.{◌≡◌, ℕ, ◌≤◌, List, length};
    ghost use Rattle.histogram.specs.Totals.{pixels};
    ghost use Rattle.histogram.specs.Tallies.{IsTally};

    ghost Value = { List ℕ };

    ghost view = { λ t. t.histogram.counts };

    ghost invariant = { λ t. IsTally t.histogram.counts t.total };

    ghost inverse = { λ counts. record { histogram = record { counts = counts }; total = pixels counts } };

    ghost inverse_ok = { λ t ok i. record { histogram = t.histogram; total = ok.adds i } };
}

impl Tally {
    // No pixel in hand.
    pub fn new() -> Tally
        ensures { result ≡ zeros }
    {
        Tally {
            histogram: Histogram::new(),
            total: 0,
        }
    }

    // The pixels of a picture; none where it has more than 65,536.
    pub fn of_picture<P: Picture>(picture: &P) -> Option<Tally>
        ensures { result ≡ (if leb (size (P.Picture.shown picture.now)) 65536 then Some (histogram_of (P.Picture.shown picture.now).levels) else None) }
    {
        let size = picture.size();
        if size > MOST {
            return None;
        }
        Some(Tally {
            histogram: Histogram::of_picture(picture),
            total: size as u32,
        })
    }

    // How many pixels are in hand.
    pub fn total(&self) -> u32
        ensures value { result ≡ pixels self.now }
        ensures few { result ≤ 65536 }
    {
        self.total
    }

    // The counts, of at most 65,536 pixels.
    pub fn histogram(&self) -> &Histogram
        ensures counts { result.now.counts ≡ self.now }
        ensures long { length self.now ≡ 256 }
        ensures few { pixels self.now ≤ 65536 }
    {
        &self.histogram
    }

    // The pixels of another tally on top, level by level; refused, and nothing changed, where they are too many.
    pub fn add(&mut self, more: &Tally) -> Result<(), Overfull>
        ensures answer { is_ok result ≡ nat_le (pixels self.old + pixels more.now) 65536 }
        ensures after { self.new ≡ (if is_ok result then added self.old more.now else self.old) }
        ensures long { length self.new ≡ 256 }
        ensures few { pixels self.new ≤ 65536 }
    {
        let total = self.total + more.total;
        if total as usize > MOST {
            return Err(Overfull);
        }
        self.histogram.add(&more.histogram);
        self.total = total;
        Ok(())
    }

    // The pixels of a histogram off, level by level; refused, and nothing changed, where not all of them are in hand.
    pub fn remove(&mut self, less: &Histogram) -> Result<(), Lacking>
        ensures answer { option_map (λ e. e.level) (result_err result) ≡ lacking self.old less.now.counts }
        ensures after { self.new ≡ (if is_ok result then removed self.old less.now.counts else self.old) }
        ensures long { length self.new ≡ 256 }
        ensures few { pixels self.new ≤ 65536 }
    {
        if let Some(level) = self.histogram.lacks(less) {
            return Err(Lacking { level });
        }
        self.histogram.subtract(less);
        self.total -= less.total() as u32;
        Ok(())
    }

    // The pixels of the levels from low to high.
    pub fn sums(&self, low: u8, high: u8) -> BandSums
        ensures count { result.count ≡ count_of self.now low high }
        ensures levels { result.levels ≡ level_sum self.now low high }
        ensures few { pixels self.now ≤ 65536 }
    {
        // A loop, since both sums are made in one go.
        let mut count = 0;
        let mut levels = 0;
        for level in low..=high {
            let here = self.histogram.count(level);
            count += here;
            levels += here * u32::from(level);
        }
        BandSums { count, levels }
    }
}
