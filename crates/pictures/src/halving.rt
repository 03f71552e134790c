// A picture at half its size.
ghost use Rattle.std.specs.Prelude.{◌≡◌, ◌+◌, ◌/◌};
ghost use Rattle.pictures.specs.Layers.{halved, halved-sound};

use crate::Picture;

// Each block of two by two levels below as one level: a quarter of their sum, rounded down.
#[derive(Clone, Copy, Drop)]
pub struct Halving<P> {
    pub below: P,
}

// A quarter of the sum of four levels, rounded down once.
fn quarter(a: u8, b: u8, c: u8, d: u8) -> u8
    ensures { result ≡ (a + b + c + d) / 4 }
{
    ((u16::from(a) + u16::from(b) + u16::from(c) + u16::from(d)) / 4) as u8
}

impl<P: Picture> Picture for Halving<P> {
    ghost shown = { λ p. halved (P.Picture.shown p.below) };

    ghost sound = { λ p. halved-sound (P.Picture.shown p.below) (P.Picture.sound p.below) };

    fn columns(&self) -> usize {
        self.below.columns() / 2
    }

    fn rows(&self) -> usize {
        self.below.rows() / 2
    }

    fn level(&self, x: usize, y: usize) -> Option<u8> {
        if x < self.columns() && y < self.rows() {
            // The whole block is inside, so each level is there.
            let a = self.below.level(2 * x, 2 * y)?;
            let b = self.below.level(2 * x + 1, 2 * y)?;
            let c = self.below.level(2 * x, 2 * y + 1)?;
            let d = self.below.level(2 * x + 1, 2 * y + 1)?;
            Some(quarter(a, b, c, d))
        } else {
            None
        }
    }
}
