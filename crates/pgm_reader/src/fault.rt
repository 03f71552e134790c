// Why a file is refused.
ghost use Rattle.std.specs.Prelude.{◌≡◌};
ghost use Rattle.pgm_reader.specs.Faults.{read_fault};

use faults::Fault;

// A variant's number is the place in the file that the fault names, or the file's length where bytes are missing.
#[derive(Clone, Copy, PartialEq, Eq, Debug)]
pub enum ReadFault {
    NotP5,
    Misplaced(usize),
    OutOfRange(usize),
    SamplesMissing(usize),
    AboveMaxval(usize),
}

// The numbers are the format that a fault is told in.
impl From<ReadFault> for Fault {
    ghost from_gives = { λ fault result. result ≡ read_fault fault };

    fn from(fault: ReadFault) -> Fault {
        let (number, detail) = match fault {
            ReadFault::NotP5 => (11, 0),
            ReadFault::Misplaced(place) => (12, place),
            ReadFault::OutOfRange(place) => (13, place),
            ReadFault::SamplesMissing(length) => (14, length),
            ReadFault::AboveMaxval(place) => (15, place),
        };
        Fault {
            layer: 1,
            number,
            detail,
        }
    }
}
