// Layers that a script puts on a picture.
ghost use Rattle.std.specs.Prelude.{◌≡◌};
ghost use Rattle.piles.specs.Layered.{layer_on, meaning};

use pictures::{EitherPicture, Halving, Negative, Picture, Window};

#[derive(Clone, Copy, Default)]
pub(crate) enum Layer {
    Window {
        left: usize,
        top: usize,
        columns: usize,
        rows: usize,
    },
    // An ArrayVec fills its free places with the default; its other maker, `new_in`, asks for a blank value too.
    #[default]
    Negative,
    Halving,
}

pub(crate) type Layered<P> = EitherPicture<Window<P>, EitherPicture<Negative<P>, Halving<P>>>;

// A layer on a picture.
pub(crate) fn layered<P: Picture>(below: P, layer: Layer) -> Layered<P>
    ensures { meaning P.Picture.shown result ≡ layer_on layer (P.Picture.shown below) }
{
    match layer {
        Layer::Window {
            left,
            top,
            columns,
            rows,
        } => EitherPicture::First(Window {
            below,
            left,
            top,
            columns,
            rows,
        }),
        Layer::Negative => EitherPicture::Second(EitherPicture::First(Negative { below })),
        Layer::Halving => EitherPicture::Second(EitherPicture::Second(Halving { below })),
    }
}
