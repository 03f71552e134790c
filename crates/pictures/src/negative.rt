// The negative of a picture.
ghost use Rattle.pictures.specs.Layers.{negated, negated-sound};

use crate::Picture;

// 255 less the level below.
#[derive(Clone, Copy, Drop)]
pub struct Negative<P> {
    pub below: P,
}

impl<P: Picture> Picture for Negative<P> {
    ghost shown = { λ p. negated (P.Picture.shown p.below) };

    ghost sound = { λ p. negated-sound (P.Picture.shown p.below) (P.Picture.sound p.below) };

    fn columns(&self) -> usize {
        self.below.columns()
    }

    fn rows(&self) -> usize {
        self.below.rows()
    }

    fn level(&self, x: usize, y: usize) -> Option<u8> {
        let level = self.below.level(x, y)?;
        Some(255 - level)
    }
}
