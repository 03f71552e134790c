// A window on a picture.
ghost use Rattle.pictures.specs.Layers.{windowed, windowed-sound};

use crate::Picture;

// The part of the picture below that lies inside: columns from left on and rows from top on, any numbers at all.
#[derive(Clone, Copy, Drop)]
pub struct Window<P> {
    pub below: P,
    pub left: usize,
    pub top: usize,
    pub columns: usize,
    pub rows: usize,
}

impl<P: Picture> Picture for Window<P> {
    ghost shown = { λ p. windowed p.left p.top p.columns p.rows (P.Picture.shown p.below) };

    ghost sound = { λ p. windowed-sound p.left p.top p.columns p.rows (P.Picture.shown p.below) (P.Picture.sound p.below) };

    fn columns(&self) -> usize {
        self.columns
            .min(self.below.columns().saturating_sub(self.left))
    }

    fn rows(&self) -> usize {
        self.rows.min(self.below.rows().saturating_sub(self.top))
    }

    fn level(&self, x: usize, y: usize) -> Option<u8> {
        if x < self.columns() && y < self.rows() {
            self.below.level(self.left + x, self.top + y)
        } else {
            None
        }
    }
}
