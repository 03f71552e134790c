// A reference to a picture is a picture.

use crate::Picture;

impl<P: Picture> Picture for &P {
    ghost shown = { λ p. P.Picture.shown p.now };

    ghost sound = { λ p. P.Picture.sound p.now };

    fn columns(&self) -> usize {
        (**self).columns()
    }

    fn rows(&self) -> usize {
        (**self).rows()
    }

    fn level(&self, x: usize, y: usize) -> Option<u8> {
        (**self).level(x, y)
    }
}
