// A picture and up to three layers on it.
ghost use Rattle.std.specs.Prelude.{◌≡◌, [], ◌∷◌, ◌++◌, is_ok, if◌then◌else◌, nat_lt, IfOk, slice_index};
ghost use Rattle.arrayvec.specs.ArrayVec.{array_vec_len};

use crate::bench::Bench;
use crate::layers::{Layer, layered};
use crate::script::{Call, Start};
use anyhow::anyhow;
use arrayvec::ArrayVec;
use doses::DosePicture;
use pictures::{BytePicture, EitherPicture, Picture};
use std::alloc::Global;

#[derive(Drop)]
pub(crate) enum Samples {
    Bytes(Vec<u8>),
    Doses(Vec<f32>),
}

// The samples below, and the layers from the lowest up.
#[derive(Drop)]
pub(crate) struct Pile {
    columns: usize,
    samples: Samples,
    layers: ArrayVec<Layer, 3>,
}

impl Pile {
    // No layer.
    pub(crate) fn new(columns: usize, samples: Samples) -> Pile
        ensures columns { result.columns ≡ columns }
        ensures samples { result.samples ≡ samples }
        ensures layers { result.layers.items ≡ [] }
    {
        Pile {
            columns,
            samples,
            layers: ArrayVec::new(),
        }
    }

    // The picture of a line in place of this one, whose samples go first: two pictures are never held at once.
    pub(crate) fn start(&mut self, heap: Global, kind: Start, given: &[usize]) -> anyhow::Result<()>
        ensures columns { IfOk result (λ _. self.new.columns ≡ slice_index given.now 0) }
        ensures layers { IfOk result (λ _. self.new.layers.items ≡ []) }
    {
        self.samples = Samples::Bytes(Vec::new(heap));
        *self = kind.pile(heap, given)?;
        Ok(())
    }

    // One layer more; refused, and nothing changed, where there are three.
    pub(crate) fn put(&mut self, layer: Layer) -> anyhow::Result<()>
        ensures answer { is_ok result ≡ nat_lt (array_vec_len self.old.layers) 3 }
        ensures layers { self.new.layers.items ≡ (if is_ok result then self.old.layers.items ++ layer ∷ [] else self.old.layers.items) }
        ensures columns { self.new.columns ≡ self.old.columns }
        ensures samples { self.new.samples ≡ self.old.samples }
    {
        if self.layers.is_full() {
            return Err(anyhow!("a fourth layer"));
        }
        self.layers.push(layer);
        Ok(())
    }

    // Prints the first clipped sample.
    pub(crate) fn clip(&self, rt: &HostRuntime) -> anyhow::Result<()> {
        let place = match &self.samples {
            Samples::Bytes(_) => None,
            Samples::Doses(samples) => {
                DosePicture::new(samples.as_slice(), self.columns).first_clip()
            }
        };
        match place {
            Some(place) => println!(rt; "clip {place}")?,
            None => println!(rt; "clip none")?,
        }
        Ok(())
    }

    // Makes a call with the whole pile. Either kind of picture below has the same type.
    pub(crate) fn call(&self, bench: &mut Bench<'_>, call: Call) -> anyhow::Result<()> {
        let base = match &self.samples {
            Samples::Bytes(bytes) => {
                EitherPicture::First(BytePicture::new(bytes.as_slice(), self.columns))
            }
            Samples::Doses(samples) => {
                EitherPicture::Second(DosePicture::new(samples.as_slice(), self.columns))
            }
        };
        match self.layers.as_slice() {
            [] => bench.answer(call, &base),
            [low, above @ ..] => under_two(bench, call, &layered(&base, *low), above),
        }
    }
}

// Makes a call with a picture under at most two layers. Not one function for all depths: that has too many types
// for the check, and a cycle of calls that makes a dyn Picture gets no proof.
fn under_two<P: Picture>(
    bench: &mut Bench<'_>,
    call: Call,
    below: &P,
    layers: &[Layer],
) -> anyhow::Result<()> {
    match layers {
        [] => bench.answer(call, below),
        [low] => bench.answer(call, &layered(below, *low)),
        [low, high, ..] => bench.answer(call, &layered(&layered(below, *low), *high)),
    }
}
