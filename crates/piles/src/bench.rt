// Three stations, one for each rule, that get the same calls: one by one, since each is a type of its own.
ghost use Rattle.std.specs.Prelude.{◌≡◌};
ghost use Rattle.station.specs.Account.{start};
ghost use Rattle.station.specs.States.{account_of};

use crate::script::Call;
use faults::Fault;
use pictures::Picture;
use rules::{Absolute, Squares, Tolerance};
use station::fault::StationFault;
use station::station::Station;

#[derive(Drop)]
pub(crate) struct Bench<'a> {
    rt: &'a HostRuntime,
    squares: Station<Squares>,
    absolute: Station<Absolute>,
    tolerance: Station<Tolerance>,
}

fn print_fault(rt: &HostRuntime, refusal: StationFault) -> anyhow::Result<()> {
    println!(rt; "{}", Fault::from(refusal))?;
    Ok(())
}

fn print_done(rt: &HostRuntime, answer: Result<(), StationFault>) -> anyhow::Result<()> {
    match answer {
        Ok(()) => println!(rt; "accepted")?,
        Err(refusal) => print_fault(rt, refusal)?,
    }
    Ok(())
}

impl<'a> Bench<'a> {
    // Nothing in hand, and no cut set.
    pub(crate) fn new(rt: &'a HostRuntime) -> Self
        ensures squares { account_of result.squares ≡ start }
        ensures absolute { account_of result.absolute ≡ start }
        ensures tolerance { account_of result.tolerance ≡ start }
    {
        Bench {
            rt,
            squares: Station::new(Squares),
            absolute: Station::new(Absolute),
            tolerance: Station::new(Tolerance { within: 2 }),
        }
    }

    // As new.
    pub(crate) fn clear(&mut self)
        ensures squares { account_of self.new.squares ≡ start }
        ensures absolute { account_of self.new.absolute ≡ start }
        ensures tolerance { account_of self.new.tolerance ≡ start }
    {
        *self = Bench::new(self.rt);
    }

    // Makes a call with a picture.
    pub(crate) fn answer<P: Picture>(&mut self, call: Call, picture: &P) -> anyhow::Result<()> {
        match call {
            Call::Show => self.show(picture),
            Call::At { x, y } => self.at(picture, x, y),
            Call::Lay => self.lay(picture),
            Call::Lift => self.lift(picture),
            Call::Otsu => self.otsu(),
            Call::Paint { length } => self.paint(picture, length),
        }
    }

    // Columns, rows and levels as the picture answers them: place by place, since a picture has no iterator over its levels.
    fn show<P: Picture>(&self, picture: &P) -> anyhow::Result<()> {
        let columns = picture.columns();
        let rows = picture.rows();
        print!(self.rt; "show {columns} {rows}")?;
        for y in 0..rows {
            for x in 0..columns {
                if let Some(level) = picture.level(x, y) {
                    print!(self.rt; " {level}")?;
                }
            }
        }
        println!(self.rt; "")?;
        Ok(())
    }

    // The level at a place.
    fn at<P: Picture>(&self, picture: &P, x: usize, y: usize) -> anyhow::Result<()> {
        match picture.level(x, y) {
            Some(level) => println!(self.rt; "at {level}")?,
            None => println!(self.rt; "at none")?,
        }
        Ok(())
    }

    // The pixels in hand: how many, and then each occupied level with its count.
    fn print_hand(&self) -> anyhow::Result<()> {
        let histogram = self.squares.histogram();
        print!(self.rt; "hand {}", self.squares.total())?;
        for level in 0..=u8::MAX {
            let count = histogram.count(level);
            if count > 0 {
                print!(self.rt; " {level}:{count}")?;
            }
        }
        println!(self.rt; "")?;
        Ok(())
    }

    // Each station for itself, here and at a lift: they differ in type, and no closure or dyn takes a call with any picture.
    fn lay<P: Picture>(&mut self, picture: &P) -> anyhow::Result<()> {
        print_done(self.rt, self.squares.lay(picture))?;
        let _ = self.absolute.lay(picture);
        let _ = self.tolerance.lay(picture);
        self.print_hand()
    }

    fn lift<P: Picture>(&mut self, picture: &P) -> anyhow::Result<()> {
        print_done(self.rt, self.squares.lift(picture))?;
        let _ = self.absolute.lift(picture);
        let _ = self.tolerance.lift(picture);
        self.print_hand()
    }

    // The classes, the sum by each rule, and the bands: no Display for either, since nothing else prints them.
    fn otsu(&mut self) -> anyhow::Result<()> {
        let squares = self.squares.otsu_cut();
        match (squares, self.absolute.otsu_cut(), self.tolerance.otsu_cut()) {
            (Ok(cut), Ok(absolute), Ok(tolerance)) => {
                print!(self.rt;
                    "cut {} {} {} {}",
                    cut.classes, cut.sum, absolute.sum, tolerance.sum
                )?
            }
            (Err(refusal), _, _) | (_, Err(refusal), _) | (_, _, Err(refusal)) => {
                return print_fault(self.rt, refusal);
            }
        }
        for band in (1..9).filter_map(|number| self.squares.band(number)) {
            print!(self.rt; " {} {} {} {}", band.low, band.high, band.level, band.count)?;
        }
        println!(self.rt; "")?;
        Ok(())
    }

    // Paints into a buffer of given bytes, and prints all of it.
    fn paint<P: Picture>(&self, picture: &P, length: usize) -> anyhow::Result<()> {
        let mut buffer: Vec<u8> = (0..length)
            .map(|i| (i.wrapping_mul(7).wrapping_add(3) & 0xff) as u8)
            .collect(self.rt.alloc())?;
        print_done(self.rt, self.squares.paint(picture, buffer.as_mut_slice()))?;
        print!(self.rt; "buffer")?;
        for byte in buffer.as_slice() {
            print!(self.rt; " {byte}")?;
        }
        println!(self.rt; "")?;
        Ok(())
    }
}
