// What stops a listing. The faults of the reader and of the station go up whole.
ghost use Rattle.std.specs.Prelude.{◌≡◌};
ghost use Rattle.listing.specs.Faults.{list_fault};
ghost use Rattle.listing.specs.declared.fault.ListFault.TheVariants.{Read, Station, Short};

use faults::{Fault, ShortBuffer};
use pgm_reader::fault::ReadFault;
use station::fault::StationFault;

#[derive(Clone, Copy, PartialEq, Eq, Debug)]
pub enum ListFault {
    Read(ReadFault),
    Station(StationFault),
    // The buffer is too short; the bytes that are needed.
    Short(usize),
}

// The numbers are the format that a fault is told in.
impl From<ListFault> for Fault {
    ghost from_gives = { λ f r. r ≡ list_fault f };

    fn from(refusal: ListFault) -> Fault {
        match refusal {
            ListFault::Read(below) => below.into(),
            ListFault::Station(below) => below.into(),
            ListFault::Short(detail) => Fault {
                layer: 4,
                number: 41,
                detail,
            },
        }
    }
}

// These by hand, since a derive states nothing of what comes out.
impl From<ReadFault> for ListFault {
    ghost from_gives = { λ f r. r ≡ Read f };

    fn from(fault: ReadFault) -> ListFault {
        ListFault::Read(fault)
    }
}

impl From<StationFault> for ListFault {
    ghost from_gives = { λ f r. r ≡ Station f };

    fn from(fault: StationFault) -> ListFault {
        ListFault::Station(fault)
    }
}

impl From<ShortBuffer> for ListFault {
    ghost from_gives = { λ s r. r ≡ Short s.needed };

    fn from(short: ShortBuffer) -> ListFault {
        ListFault::Short(short.needed)
    }
}
