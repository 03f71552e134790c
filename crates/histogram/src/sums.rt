// The pixels of a band of levels, as two sums.
ghost use Rattle.std.specs.Prelude.{◌≡◌, ◌*◌, ◌≤◌, IfSome, if◌then◌else◌, Some, None, nat_eq};
ghost use Rattle.histogram.specs.Means.{nearest_level, Nearest};

// How many pixels, and the sum of their levels.
#[derive(Clone, Copy)]
pub struct BandSums {
    pub(crate) count: u32,
    pub(crate) levels: u32,
    ghost few: { count ≤ 65536 },
    ghost dim: { levels ≤ 255 * count },
}

impl BandSums {
    // How many pixels.
    pub fn count(&self) -> u32
        ensures { result ≡ self.now.count }
    {
        self.count
    }

    // The sum of the levels.
    pub fn levels(&self) -> u32
        ensures { result ≡ self.now.levels }
    {
        self.levels
    }

    // The level nearest to the mean, the lower one at a half; none without a pixel.
    pub fn nearest_level(&self) -> Option<u8>
        ensures value { result ≡ (if nat_eq self.now.count 0 then None else Some (nearest_level self.now.count self.now.levels)) }
        ensures nearest { IfSome result (Nearest self.now.count self.now.levels) }
    {
        if self.count == 0 {
            return None;
        }
        Some(((2 * self.levels + self.count - 1) / (2 * self.count)) as u8)
    }
}
