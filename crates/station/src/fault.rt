// Why a station refused a call.
ghost use Rattle.std.specs.Prelude.{◌≡◌};
ghost use Rattle.station.specs.Faults.{station_fault};
ghost use Rattle.station.specs.declared.fault.StationFault.TheVariants.{Lacking, TooMany, ShortBuffer};

use faults::Fault;
use histogram::tally::{Lacking, Overfull};
use painting::ShortBuffer;

#[derive(Clone, Copy, PartialEq, Eq, Debug)]
pub enum StationFault {
    // No cut was accepted yet.
    NoCut,
    // The picture has more pixels of some level than are in hand; the lowest such level.
    Lacking(u8),
    // The picture has no pixel.
    NoPixel,
    // More than 65,536 pixels would be in hand.
    TooMany,
    // Nothing is in hand.
    Empty,
    // Fewer levels are occupied than classes are wanted; how many are.
    FewLevels(usize),
    // The buffer is too short; the bytes needed.
    ShortBuffer(usize),
}

// The numbers are the format that a fault is told in.
impl From<StationFault> for Fault {
    ghost from_gives = { λ f r. r ≡ station_fault f };

    fn from(refusal: StationFault) -> Fault {
        let (number, detail) = match refusal {
            StationFault::NoCut => (22, 0),
            StationFault::Lacking(level) => (23, usize::from(level)),
            StationFault::NoPixel => (31, 0),
            StationFault::TooMany => (32, 0),
            StationFault::Empty => (33, 0),
            StationFault::FewLevels(levels) => (34, levels),
            StationFault::ShortBuffer(needed) => (41, needed),
        };
        Fault {
            layer: 3,
            number,
            detail,
        }
    }
}

// These by hand, since a derive states nothing of what comes out.
impl From<Lacking> for StationFault {
    ghost from_gives = { λ l r. r ≡ Lacking l.level };

    fn from(lacking: Lacking) -> StationFault {
        StationFault::Lacking(lacking.level)
    }
}

impl From<Overfull> for StationFault {
    ghost from_gives = { λ _ r. r ≡ TooMany };

    fn from(_overfull: Overfull) -> StationFault {
        StationFault::TooMany
    }
}

impl From<ShortBuffer> for StationFault {
    ghost from_gives = { λ s r. r ≡ ShortBuffer s.needed };

    fn from(short: ShortBuffer) -> StationFault {
        StationFault::ShortBuffer(short.needed)
    }
}
