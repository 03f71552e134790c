// What a line of a script asks for.
ghost use Rattle.std.specs.Prelude.{◌≡◌, ◌<◌, ◌≤◌, [], length, take, MatchResult, IfOk, slice_index};
ghost use Rattle.piles.specs.declared.layers.Layer.TheVariants.{Window};

use crate::layers::Layer;
use crate::pile::{Pile, Samples};
use anyhow::anyhow;
use std::alloc::Global;
use std::num::f32_from_bits_with_nan;
use std::str::SplitWhitespace;

#[derive(Drop)]
pub(crate) enum Command {
    // New stations.
    Case,
    // A picture without a layer, from the numbers of its line.
    Start { kind: Start, given: Vec<usize> },
    Put(Layer),
    // The first clipped sample.
    Clip,
    Call(Call),
}

// What the numbers of a picture's line say. The picture is made by the pile that takes it, and not where its line is read: so the
// old one can go first.
#[derive(Clone, Copy)]
pub(crate) enum Start {
    Bytes,
    Ramp,
    Doses,
}

impl Start {
    // The picture of the numbers, without a layer.
    pub(crate) fn pile(self, heap: Global, given: &[usize]) -> anyhow::Result<Pile>
        ensures columns { IfOk result (λ pile. pile.columns ≡ slice_index given.now 0) }
        ensures layers { IfOk result (λ pile. pile.layers.items ≡ []) }
    {
        match self {
            Start::Bytes => bytes(heap, given),
            Start::Ramp => ramp(heap, given),
            Start::Doses => doses(heap, given),
        }
    }
}

// A call with the whole pile.
#[derive(Clone, Copy)]
pub(crate) enum Call {
    Show,
    At { x: usize, y: usize },
    Lay,
    Lift,
    Otsu,
    // Into a buffer of so many bytes.
    Paint { length: usize },
}

// The numbers behind a line's first word.
fn numbers(heap: Global, words: SplitWhitespace<'_>) -> anyhow::Result<Vec<usize>> {
    let mut given = Vec::new(heap);
    for word in words {
        given.push(word.parse::<usize>()?)?;
    }
    Ok(given)
}

// The first numbers of a line; refused where it has too few.
fn first<const N: usize>(given: &[usize]) -> anyhow::Result<[usize; N]>
    ensures { MatchResult result (λ ns. ns ≡ take N given.now × N ≤ length given.now) (λ _. length given.now < N) }
{
    match given.first_chunk() {
        Some(numbers) => Ok(*numbers),
        None => Err(anyhow!("a number is missing")),
    }
}

// The window of a line.
fn window(given: &[usize]) -> anyhow::Result<Layer>
    ensures { IfOk result (λ l. l ≡ Window (slice_index given.now 0) (slice_index given.now 1) (slice_index given.now 2) (slice_index given.now 3)) }
{
    let [left, top, columns, rows] = first::<4>(given)?;
    Ok(Layer::Window {
        left,
        top,
        columns,
        rows,
    })
}

// A byte picture.
fn bytes(heap: Global, given: &[usize]) -> anyhow::Result<Pile>
    ensures columns { IfOk result (λ pile. pile.columns ≡ slice_index given.now 0) }
    ensures layers { IfOk result (λ pile. pile.layers.items ≡ []) }
{
    let [columns] = first::<1>(given)?;
    let bytes: Vec<u8> = given
        .iter()
        .skip(1)
        .map(|value| (*value & 0xff) as u8)
        .collect(heap)?;
    Ok(Pile::new(columns, Samples::Bytes(bytes)))
}

// A byte picture of some bytes from a first on, each a step further.
fn ramp(heap: Global, given: &[usize]) -> anyhow::Result<Pile>
    ensures columns { IfOk result (λ pile. pile.columns ≡ slice_index given.now 0) }
    ensures layers { IfOk result (λ pile. pile.layers.items ≡ []) }
{
    let [columns, count, start, step] = first::<4>(given)?;
    let bytes: Vec<u8> = (0..count)
        .map(|i| (start.wrapping_add(i.wrapping_mul(step)) & 0xff) as u8)
        .collect(heap)?;
    Ok(Pile::new(columns, Samples::Bytes(bytes)))
}

// A dose picture, each sample by its bits.
fn doses(heap: Global, given: &[usize]) -> anyhow::Result<Pile>
    ensures columns { IfOk result (λ pile. pile.columns ≡ slice_index given.now 0) }
    ensures layers { IfOk result (λ pile. pile.layers.items ≡ []) }
{
    let [columns] = first::<1>(given)?;
    let samples: Vec<f32> = given
        .iter()
        .skip(1)
        .map(|bits| f32_from_bits_with_nan((*bits & 0xffff_ffff) as u32))
        .collect(heap)?;
    Ok(Pile::new(columns, Samples::Doses(samples)))
}

// A call by its word, which is text only here.
fn call_of(word: &str, given: &[usize]) -> anyhow::Result<Call> {
    Ok(match word {
        "show" => Call::Show,
        "at" => {
            let [x, y] = first::<2>(given)?;
            Call::At { x, y }
        }
        "lay" => Call::Lay,
        "lift" => Call::Lift,
        "otsu" => Call::Otsu,
        "paint" => {
            let [length] = first::<1>(given)?;
            Call::Paint { length }
        }
        _ => return Err(anyhow!("no such call")),
    })
}

// A line of the script: a picture, a layer on it, or a call; none where it has no word. Here alone its word is text.
pub(crate) fn read(heap: Global, line: &str) -> anyhow::Result<Option<Command>> {
    if line == "case" {
        return Ok(Some(Command::Case));
    }
    let mut words = line.split_whitespace();
    let Some(word) = words.next() else {
        return Ok(None);
    };
    let given = numbers(heap, words)?;
    Ok(Some(match word {
        "bytes" => Command::Start {
            kind: Start::Bytes,
            given,
        },
        "ramp" => Command::Start {
            kind: Start::Ramp,
            given,
        },
        "doses" => Command::Start {
            kind: Start::Doses,
            given,
        },
        "window" => Command::Put(window(given.as_slice())?),
        "negative" => Command::Put(Layer::Negative),
        "halving" => Command::Put(Layer::Halving),
        "clip" => Command::Clip,
        _ => Command::Call(call_of(word, given.as_slice())?),
    }))
}
