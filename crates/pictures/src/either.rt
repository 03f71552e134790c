// One of two kinds of picture.
ghost use Rattle.pictures.specs.Either.{either, either-sound};

use crate::Picture;

// A picture of either kind, so that one run of calls can mix them. No Result: neither kind is an error.
#[derive(Clone, Copy, Drop)]
pub enum EitherPicture<A, B> {
    First(A),
    Second(B),
}

impl<A: Picture, B: Picture> Picture for EitherPicture<A, B> {
    ghost shown = { either A.Picture.shown B.Picture.shown };

    ghost sound = { either-sound A.Picture.shown B.Picture.shown A.Picture.sound B.Picture.sound };

    fn columns(&self) -> usize {
        match self {
            EitherPicture::First(p) => p.columns(),
            EitherPicture::Second(p) => p.columns(),
        }
    }

    fn rows(&self) -> usize {
        match self {
            EitherPicture::First(p) => p.rows(),
            EitherPicture::Second(p) => p.rows(),
        }
    }

    fn level(&self, x: usize, y: usize) -> Option<u8> {
        match self {
            EitherPicture::First(p) => p.level(x, y),
            EitherPicture::Second(p) => p.level(x, y),
        }
    }
}
