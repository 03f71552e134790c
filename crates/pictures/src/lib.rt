// Pictures: what every kind of picture answers.
#![tactic(auto)]

ghost use Rattle.std.specs.Prelude.{◌≡◌};
ghost use Rattle.pictures.specs.Raster.{Raster, Sound, level_at, size};

mod bytes;
mod either;
pub mod grid;
mod halving;
mod lent;
mod negative;
mod window;

pub use bytes::BytePicture;
pub use either::EitherPicture;
pub use halving::Halving;
pub use negative::Negative;
pub use window::Window;

// A picture of at most 4,096 columns and rows, with a level from 0 to 255 at each place, counted from 0 at the top left.
pub trait Picture {
    // What the picture means; every answer is about this, so questions change nothing and always get the same answer.
    ghost shown: { Self → Raster };

    fn columns(&self) -> usize
        ensures { result ≡ (shown self.now).columns };

    fn rows(&self) -> usize
        ensures { result ≡ (shown self.now).rows };

    // The level at column x of row y; none outside. Two numbers and no struct, since loops over rows and columns have them apart.
    fn level(&self, x: usize, y: usize) -> Option<u8>
        ensures { result ≡ level_at (shown self.now) x y };

    // The law of pictures: what a value of any kind means is a picture.
    ghost sound: { (p : Self) → Sound (shown p) };

    // How many pixels there are.
    final fn size(&self) -> usize
        ensures { result ≡ size (shown self.now) }
    {
        self.columns() * self.rows()
    }
}

#[cfg(test)]
mod tests {
    use super::*;

    const M: [u8; 8] = [10, 10, 12, 12, 50, 50, 52, 60];

    #[test]
    fn half_the_columns_and_rows(rt: HostRuntime) {
        let halved = Halving {
            below: BytePicture::new(&M, 4),
        };
        assert_eq!(rt; halved.columns(), 2);
        assert_eq!(rt; halved.rows(), 1);
        assert_eq!(rt; halved.level(0, 0), Some(30));
        assert_eq!(rt; halved.level(1, 0), Some(34));
        assert_eq!(rt; halved.level(2, 0), None);
    }

    #[test]
    fn a_window_is_cut_at_the_edges(rt: HostRuntime) {
        let m = BytePicture::new(&M, 4);
        let window = Window {
            below: &m,
            left: 2,
            top: 0,
            columns: 5,
            rows: 1,
        };
        assert_eq!(rt; window.columns(), 2);
        assert_eq!(rt; window.rows(), 1);
        assert_eq!(rt; window.level(1, 0), Some(12));
        assert_eq!(rt; window.level(0, 1), None);
        let far = Window {
            below: &m,
            left: usize::MAX,
            top: 1,
            columns: usize::MAX,
            rows: usize::MAX,
        };
        assert_eq!(rt; far.columns(), 0);
        assert_eq!(rt; far.rows(), 1);
        assert_eq!(rt; far.level(usize::MAX, 0), None);
    }
}
