// Painting: a picture's pixels as the levels of their bands, into a buffer.
#![tactic(auto)]

ghost use Rattle.std.specs.Prelude.{◌≡◌, ℕ, ◌≤◌, true, length, take, is_ok, if◌then◌else◌};
ghost use Rattle.pictures.specs.Raster.{size};
ghost use Rattle.histogram.specs.Counts.{histogram_of};
ghost use Rattle.cut_sets.specs.Sets.{bands_of};
ghost use Rattle.painting.specs.Paintings.{painted_over, answer_to};
ghost use Rattle.painting.specs.Changes.{changed, change_of};

use cut_sets::cut_set::CutSet;
use pictures::Picture;

mod palette;

pub use faults::ShortBuffer;
pub use palette::Palette;

// Writes a byte for each pixel, row by row, at the front of a buffer: the level of the pixel's band.
// Refused, and nothing written, where the buffer is too short. Picture and buffer stay two parameters: one is read, the other written.
// By how much a painting changes a picture, by any distance, depends on the picture's histogram alone.
pub fn paint<P: Picture>(set: &CutSet, picture: &P, buffer: &mut [u8]) -> Result<(), ShortBuffer>
    ensures answer { result ≡ answer_to (P.Picture.shown picture.now) buffer.old }
    ensures after { buffer.new ≡ (if is_ok result then painted_over (bands_of set.now) (P.Picture.shown picture.now) buffer.old else buffer.old) }
    ensures change { (d : ℕ → ℕ → ℕ) → is_ok result ≡ true → changed d (P.Picture.shown picture.now).levels (take (size (P.Picture.shown picture.now)) buffer.new) ≡ change_of d (bands_of set.now) (histogram_of (P.Picture.shown picture.now).levels) }
{
    let needed = picture.size();
    if buffer.len() < needed {
        return Err(ShortBuffer { needed });
    }
    paint_rows(set, picture, buffer);
    Ok(())
}

// Paints into a buffer that is long enough.
fn paint_rows<P: Picture>(set: &CutSet, picture: &P, buffer: &mut [u8])
    requires { size (P.Picture.shown picture.now) ≤ length buffer.old }
    ensures { buffer.new ≡ painted_over (bands_of set.now) (P.Picture.shown picture.now) buffer.old }
{
    let palette = Palette::new(set);
    let columns = picture.columns();
    let rows = picture.rows();
    // Loops: after a closure that changes what it borrowed, a proof knows nothing of it.
    for y in 0..rows {
        let start = y * columns;
        // Counted by place, since the picture is asked by the same numbers.
        for x in 0..columns {
            if let Some(level) = picture.level(x, y) {
                buffer[start + x] = palette.level_of(level);
            }
        }
    }
}

#[cfg(test)]
mod tests {
    use super::*;
    use cut_sets::band::Band;
    use cut_sets::table::BandTable;
    use pictures::BytePicture;
    use std::test::Fail;

    #[test]
    fn two_bands(rt: HostRuntime) -> Result<(), Fail> {
        let mut bands = BandTable::new();
        bands.put(
            0,
            Band {
                low: 10,
                high: 12,
                level: 11,
                count: 4,
            },
        );
        bands.put(
            1,
            Band {
                low: 13,
                high: 60,
                level: 53,
                count: 4,
            },
        );
        let Some(set) = CutSet::new(bands, 2) else {
            return Err(Fail::new("the bands are no cut set"));
        };
        let palette = Palette::new(&set);
        assert_eq!(rt; palette.level_of(0), 11);
        assert_eq!(rt; palette.level_of(255), 53);
        let levels = [10, 10, 12, 12, 50, 50, 52, 60];
        let picture = BytePicture::new(&levels, 4);
        let mut buffer = [7; 10];
        assert_eq!(rt; paint(&set, &picture, &mut buffer), Ok(()));
        assert_eq!(rt; buffer, [11, 11, 11, 11, 53, 53, 53, 53, 7, 7]);
        let mut short = [7; 7];
        assert_eq!(rt;
            paint(&set, &picture, &mut short),
            Err(ShortBuffer { needed: 8 })
        );
        assert_eq!(rt; short, [7; 7]);
        let empty = BytePicture::new(&levels[..0], 4);
        assert_eq!(rt; paint(&set, &empty, &mut short[..0]), Ok(()));
        Ok(())
    }
}
