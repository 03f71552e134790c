// The byte picture.
ghost use Rattle.std.specs.Prelude.{◌≡◌, ℕ, ◌≤◌, slice_index};
ghost use Rattle.pictures.specs.Bytes.{byte_raster};
ghost use Rattle.pictures.specs.Grids.{grid_showing, grid_showing-sound};

use crate::Picture;
use crate::grid::Samples;

// Bytes in the caller's memory, as whole rows.
#[derive(Clone, Copy)]
pub struct BytePicture<'a> {
    bytes: Samples<'a, u8>,
    // For the proof of `level`: `Samples` are of any type, so a proof sees only here that these are at most 255.
    ghost levels: { (i : ℕ) → slice_index bytes.samples.now i ≤ 255 },
}

impl<'a> BytePicture<'a> {
    // Never refuses: a column count of 0 or above 4,096 makes a picture of no column and no row.
    // `⟦..⟧.shown result` is what the picture means, as its `impl Picture` below says.
    pub fn new(bytes: &'a [u8], columns: usize) -> Self
        ensures { ⟦<BytePicture<'a> as Picture>⟧.shown result ≡ byte_raster columns bytes.now }
    {
        BytePicture {
            bytes: Samples::new(bytes, columns),
        }
    }
}

impl<'a> Picture for BytePicture<'a> {
    ghost shown = { λ p. grid_showing p.bytes.grid p.bytes.samples.now };

    ghost sound = { λ p. grid_showing-sound p.bytes.grid p.bytes.samples.now };

    fn columns(&self) -> usize {
        self.bytes.columns()
    }

    fn rows(&self) -> usize {
        self.bytes.rows()
    }

    #[tactic(auto, using(crate::proofs::Grids::byte_level))]
    fn level(&self, x: usize, y: usize) -> Option<u8> {
        self.bytes.sample(x, y)
    }
}

#[cfg(test)]
mod tests {
    use super::*;

    #[test]
    fn seven_bytes_at_three_columns(rt: HostRuntime) {
        let bytes = [1, 2, 3, 4, 5, 6, 7];
        let picture = BytePicture::new(&bytes, 3);
        assert_eq!(rt; picture.columns(), 3);
        assert_eq!(rt; picture.rows(), 2);
        assert_eq!(rt; picture.level(2, 1), Some(6));
        assert_eq!(rt; picture.level(3, 0), None);
        assert_eq!(rt; picture.level(0, 2), None);
    }

    #[test]
    fn column_counts_without_a_row(rt: HostRuntime) {
        let bytes = [0; 4097];
        assert_eq!(rt; BytePicture::new(&bytes, 0).rows(), 0);
        assert_eq!(rt; BytePicture::new(&bytes, 4097).rows(), 0);
    }
}
