// The table that a cut set keeps its bands in.
ghost use Rattle.std.specs.Prelude.{◌≡◌, ◌≤◌, true, false, length, replicate, slice_set};
ghost use Rattle.cut_sets.specs.Bands.{no_band, Inside, Rising};

use crate::band::Band;

// Eight places for bands.
#[derive(Clone, Copy)]
pub struct BandTable {
    pub(crate) places: [Band; 8],
    ghost full: { length places ≡ 8 },
}

impl BandTable {
    pub fn new() -> BandTable
        ensures { result.places ≡ replicate 8 no_band }
    {
        BandTable {
            places: [Band::default(); 8],
        }
    }

    // Fills one place; there is none from the eighth on, counted from 0.
    pub fn put(&mut self, place: usize, band: Band)
        ensures { self.new.places ≡ slice_set self.old.places place band }
    {
        if place < 8 {
            self.places[place] = band;
        }
    }

    // Whether the first bands rise and have their levels inside.
    pub(crate) fn rises(&self, classes: usize) -> bool
        requires { classes ≤ 8 }
        ensures yes { result ≡ true → Inside classes self.now.places × Rising classes self.now.places }
        ensures no { result ≡ false → Inside classes self.now.places → Rising classes self.now.places → ⊥ }
    {
        let bands = &self.places[..classes];
        bands
            .iter()
            .all(|band| band.low <= band.level && band.level <= band.high)
            && bands.windows(2).all(|pair| pair[0].high < pair[1].low)
    }
}
