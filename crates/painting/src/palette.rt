// The painted level of every level, looked up instead of searched for.
ghost use Rattle.std.specs.Prelude.{◌≡◌, slice_index};
ghost use Rattle.histogram.specs.Levels.{each};
ghost use Rattle.cut_sets.specs.Painted.{painted};
ghost use Rattle.cut_sets.specs.Sets.{bands_of};

use cut_sets::cut_set::CutSet;
use std::array;

// What a cut set paints each of the 256 levels with.
#[derive(Clone, Copy)]
pub struct Palette {
    levels: [u8; 256],
}

impl Palette {
    // Made once a painting, and kept out of it: so a painting stays small enough to go into the loop of a caller.
    #[inline(never)]
    pub fn new(set: &CutSet) -> Palette
        ensures { result.levels ≡ each (painted (bands_of set.now)) }
    {
        let levels = array::from_fn(|level| set.level_of(level as u8));
        Palette { levels }
    }

    // What a level is painted with.
    pub fn level_of(&self, level: u8) -> u8
        ensures { result ≡ slice_index self.now.levels level }
    {
        self.levels[usize::from(level)]
    }
}
