// Dose pictures: float samples, their levels, and the first that is clipped.
#![tactic(auto)]

ghost use Rattle.std.specs.Prelude.{◌≡◌, ◌++◌, Some, codes, decimal, map, length};
ghost use Rattle.pictures.specs.Bytes.{columns_given, whole_rows};
ghost use Rattle.pictures.specs.Grids.{grid_showing, grid_showing-sound};
ghost use Rattle.doses.specs.Dose.{dose_level_of, clips, dose_raster};
ghost use Rattle.doses.specs.Clips.{first_clip, FirstClip};

use pictures::Picture;
use pictures::grid::Samples;
use std::fmt;
use std::num::saturating_f32_to_u8;

// Float samples in the caller's memory, as whole rows.
// A second picture over `Samples`, and not one generic picture for both: only its own crate can give a type methods, and `first_clip`
// is a method of dose pictures alone; nor can f32 get a trait of `pictures` here, where both are foreign.
#[derive(Clone, Copy)]
pub struct DosePicture<'a> {
    samples: Samples<'a, f32>,
}

// Column x of row y.
#[derive(Clone, Copy, PartialEq, Eq, Debug)]
pub struct Place {
    pub x: usize,
    pub y: usize,
}

// Column and row, with a space between.
impl fmt::Display for Place {
    ghost output = { λ p. Some (decimal p.x ++ codes " " ++ decimal p.y) };

    fn fmt<W: fmt::Write>(&self, f: &mut fmt::Formatter<W>) -> fmt::Result {
        write!(f, "{} {}", self.x, self.y)
    }
}

// The sample without its fraction, clipped to 0 or 255 where it is no level.
fn dose_level(sample: f32) -> u8
    ensures { result ≡ dose_level_of sample }
{
    saturating_f32_to_u8(sample)
}

// The comparison with 0 fails for what is below 0, and for what is not a number too: hence the `else`, and no `sample < 0.0`.
fn is_clipped(sample: f32) -> bool
    ensures { result ≡ clips sample }
{
    if 0.0 <= sample { 256.0 <= sample } else { true }
}

impl<'a> DosePicture<'a> {
    // Never refuses: a column count of 0 or above 4,096 makes a picture of no column and no row.
    // `⟦..⟧.shown result` is what the picture means, as its `impl Picture` below says.
    pub fn new(samples: &'a [f32], columns: usize) -> Self
        ensures shown { ⟦<DosePicture<'a> as Picture>⟧.shown result ≡ dose_raster columns samples.now }
        ensures columns { result.samples.grid.columns ≡ columns_given columns }
        ensures rows { result.samples.grid.rows ≡ whole_rows (columns_given columns) (length samples.now) }
        ensures samples { result.samples.samples.now ≡ samples.now }
    {
        DosePicture {
            samples: Samples::new(samples, columns),
        }
    }

    // The place of the first clipped sample, row by row; none where no sample is clipped.
    // Nested loops, left by a label: so the place is at hand, and no number of a sample has to be taken apart.
    pub fn first_clip(&self) -> Option<Place>
        ensures value { result ≡ first_clip self.now.samples.grid.columns self.now.samples.grid.rows self.now.samples.samples.now }
        ensures words { FirstClip self.now.samples.grid.columns self.now.samples.grid.rows self.now.samples.samples.now result }
    {
        let columns = self.samples.columns();
        let rows = self.samples.rows();
        let mut found = None;
        'search: for y in 0..rows {
            for x in 0..columns {
                if self.samples.sample(x, y).is_some_and(is_clipped) {
                    found = Some(Place { x, y });
                    break 'search;
                }
            }
        }
        found
    }
}

impl<'a> Picture for DosePicture<'a> {
    ghost shown = { λ p. grid_showing p.samples.grid (map dose_level_of p.samples.samples.now) };

    ghost sound = { λ p. grid_showing-sound p.samples.grid (map dose_level_of p.samples.samples.now) };

    fn columns(&self) -> usize {
        self.samples.columns()
    }

    fn rows(&self) -> usize {
        self.samples.rows()
    }

    fn level(&self, x: usize, y: usize) -> Option<u8> {
        self.samples.sample(x, y).map(dose_level)
    }
}

#[cfg(test)]
mod tests {
    use super::*;
    use pictures::{BytePicture, EitherPicture, Halving, Negative};

    #[test]
    fn levels_at_the_edges(rt: HostRuntime) {
        let samples = [
            -0.0,
            255.75,
            256.0,
            f32::NAN,
            f32::INFINITY,
            f32::NEG_INFINITY,
            1.0e-45,
            -1.0e-45,
        ];
        let picture = DosePicture::new(&samples, 8);
        assert_eq!(rt; picture.level(0, 0), Some(0));
        assert_eq!(rt; picture.level(1, 0), Some(255));
        assert_eq!(rt; picture.level(2, 0), Some(255));
        assert_eq!(rt; picture.level(3, 0), Some(0));
        assert_eq!(rt; picture.level(4, 0), Some(255));
        assert_eq!(rt; picture.level(5, 0), Some(0));
        assert_eq!(rt; picture.level(6, 0), Some(0));
        assert_eq!(rt; picture.first_clip(), Some(Place { x: 2, y: 0 }));
    }

    #[test]
    fn the_first_clip_in_row_order(rt: HostRuntime) {
        let samples = [0.0, 7.0, 0.5, 1.0e-45, 255.99, -1.0e-45, 300.0];
        assert_eq!(rt;
            DosePicture::new(&samples, 2).first_clip(),
            Some(Place { x: 1, y: 2 })
        );
        assert_eq!(rt; DosePicture::new(&samples, 4).first_clip(), None);
    }

    #[test]
    fn a_pile_of_mixed_kinds(rt: HostRuntime) {
        let bytes = [10, 10, 12, 12, 50, 50, 52, 60];
        let samples = [1.5, 300.0, 2.0, 4.0];
        let mut pictures = [
            EitherPicture::First(BytePicture::new(&bytes, 4)),
            EitherPicture::Second(DosePicture::new(&samples, 2)),
        ];
        let halved = Halving {
            below: Negative {
                below: &pictures[1],
            },
        };
        assert_eq!(rt; halved.level(0, 0), Some(189));
        pictures[1] = pictures[0];
        assert_eq!(rt; pictures[1].level(3, 1), Some(60));
    }
}
