// The station and its calls.
ghost use Rattle.std.specs.Prelude.{◌≡◌, ◌≤◌, true, List, length, take, is_ok, Some};
ghost use Rattle.histogram.specs.Totals.{pixels};

use crate::fault::StationFault;
use cut_sets::band::Band;
use cut_sets::cut_set::CutSet;
use histogram::histogram::Histogram;
use histogram::tally::Tally;
use pictures::Picture;
use rules::DistanceRule;

// A station holds its distance rule, the pixels in hand and the last cut set. That the rule stays is no part of the
// account, so each call that changes a station says it for itself.
#[derive(Drop)]
pub struct Station<R> {
    rule: R,
    tally: Tally,
    cuts: Option<CutSet>,
    // What the tally keeps, said again, since a clause sees its counts alone.
    ghost long: { length tally ≡ 256 },
    ghost few: { pixels tally ≤ 65536 },
}

// What an accepted cut answers: how many classes, and the total distance from the pixels in hand to their band's level.
#[derive(Clone, Copy, PartialEq, Eq, Debug)]
pub struct CutAnswer {
    pub classes: usize,
    pub sum: u64,
}

impl<R: DistanceRule> Station<R> {
    ghost use Rattle.pictures.specs.Raster.{size};
    ghost use Rattle.histogram.specs.Counts.{histogram_of};
    ghost use Rattle.cut_sets.specs.declared.band.Band.{Band as BandHeld};
    ghost use Rattle.cut_sets.specs.Sets.{bands_of};
    ghost use Rattle.painting.specs.Changes.{changed, change_of};
    ghost use Rattle.station.specs.Account.{start, step, outcome, lay, lift, otsu_cut, paint, paint_buffer, keeping, cut_into, band_held};
    ghost use Rattle.station.specs.States.{account_of, done_or, cut_or};

    // No pixel in hand, and no cut set.
    pub fn new(rule: R) -> Station<R>
        ensures account { account_of result ≡ start }
        ensures rule { result.rule ≡ rule }
    {
        Station {
            rule,
            tally: Tally::new(),
            cuts: None,
        }
    }

    // Adds a picture's pixels to those in hand.
    pub fn lay<P: Picture>(&mut self, picture: &P) -> Result<(), StationFault>
        ensures outcome { outcome (done_or result) (account_of self.new) ≡ step (R.DistanceRule.table self.old.rule) (account_of self.old) (lay (P.Picture.shown picture.now)) }
        ensures rule { self.new.rule ≡ self.old.rule }
    {
        let more = Tally::of_picture(picture).ok_or(StationFault::TooMany)?;
        if more.total() == 0 {
            return Err(StationFault::NoPixel);
        }
        Ok(self.tally.add(&more)?)
    }

    // Takes a picture's pixels out of those in hand.
    pub fn lift<P: Picture>(&mut self, picture: &P) -> Result<(), StationFault>
        ensures outcome { outcome (done_or result) (account_of self.new) ≡ step (R.DistanceRule.table self.old.rule) (account_of self.old) (lift (P.Picture.shown picture.now)) }
        ensures rule { self.new.rule ≡ self.old.rule }
    {
        let less = Histogram::of_picture(picture);
        if less.total() == 0 {
            Err(StationFault::NoPixel)
        } else {
            Ok(self.tally.remove(&less)?)
        }
    }

    // Cuts the pixels in hand into two classes by Otsu's threshold.
    pub fn otsu_cut(&mut self) -> Result<CutAnswer, StationFault>
        ensures outcome { outcome (cut_or result) (account_of self.new) ≡ step (R.DistanceRule.table self.old.rule) (account_of self.old) otsu_cut }
        ensures rule { self.new.rule ≡ self.old.rule }
    {
        if self.tally.total() == 0 {
            return Err(StationFault::Empty);
        }
        let Some(set) = otsu::cut(&self.tally) else {
            return Err(StationFault::FewLevels(self.tally.histogram().extent().occupied));
        };
        Ok(self.keep(set))
    }

    // Takes a cut set of the pixels in hand for the last one.
    fn keep(&mut self, set: CutSet) -> CutAnswer
        ensures outcome { outcome (cut_into result.classes result.sum) (account_of self.new) ≡ keeping (R.DistanceRule.table self.old.rule) (account_of self.old) (bands_of set) }
        ensures rule { self.new.rule ≡ self.old.rule }
    {
        let sum = set.sum(&self.rule, &self.tally);
        self.cuts = Some(set);
        CutAnswer {
            classes: set.classes(),
            sum,
        }
    }

    // Writes a picture, painted by the last cut set, to the front of a buffer.
    // By how much that changes the picture depends on the picture's histogram alone.
    pub fn paint<P: Picture>(&self, picture: &P, buffer: &mut [u8]) -> Result<(), StationFault>
        ensures outcome { outcome (done_or result) (account_of self.now) ≡ step (R.DistanceRule.table self.now.rule) (account_of self.now) (paint (P.Picture.shown picture.now) buffer.old) }
        ensures buffer { buffer.new ≡ paint_buffer (account_of self.now).cuts (P.Picture.shown picture.now) buffer.old }
        ensures change { (bs : List BandHeld) → (account_of self.now).cuts ≡ Some bs → is_ok result ≡ true → changed (R.DistanceRule.table self.now.rule) (P.Picture.shown picture.now).levels (take (size (P.Picture.shown picture.now)) buffer.new) ≡ change_of (R.DistanceRule.table self.now.rule) bs (histogram_of (P.Picture.shown picture.now).levels) }
    {
        let set = self.cuts.ok_or(StationFault::NoCut)?;
        Ok(painting::paint(&set, picture, buffer)?)
    }

    // A band of the last cut set by its number, counted from 1; none where it is absent.
    pub fn band(&self, number: usize) -> Option<Band>
        ensures { result ≡ band_held (account_of self.now).cuts number }
    {
        self.cuts?.band(number)
    }

    // The histogram of the pixels in hand.
    pub fn histogram(&self) -> Histogram
        ensures counts { result.counts ≡ (account_of self.now).hand }
        ensures long { length result.counts ≡ 256 }
        ensures few { pixels result.counts ≤ 65536 }
    {
        *self.tally.histogram()
    }

    // How many pixels are in hand.
    pub fn total(&self) -> u32
        ensures value { result ≡ pixels (account_of self.now).hand }
        ensures few { result ≤ 65536 }
    {
        self.tally.total()
    }
}
