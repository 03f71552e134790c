// The header of a binary grey map, read one byte at a time.
ghost use Rattle.std.specs.Prelude.{◌≡◌, ℕ, List};
ghost use Rattle.faults.specs.Faults.{told};
ghost use Rattle.pgm_reader.specs.Faults.{read_fault};
ghost use Rattle.pgm_reader.specs.Format.{shape_of};
ghost use Rattle.pgm_reader.specs.Machine.{kind_of, largest_of, left, Steps, Closes};

use crate::fault::ReadFault;

#[derive(Clone, Copy)]
pub(crate) enum Kind {
    White,
    Digit(u8),
    Other,
}

// The number that is read next, or now, with those that are read already.
#[derive(Clone, Copy)]
pub(crate) enum Field {
    Columns,
    Rows { columns: usize },
    Maxval { columns: usize, rows: usize },
}

// Opened: only `P5` is read. Gap: between numbers. Digits: in a number, whose first digit has the place `start`,
// and whose digits make `value` so far.
#[derive(Clone, Copy)]
pub(crate) enum Stage {
    Opened,
    Gap,
    Digits { start: usize, value: usize },
}

// The three numbers of a header. A step answers these and no Shape: it would have to ask that the place behind its byte is a usize.
#[derive(Clone, Copy)]
pub(crate) struct Numbers {
    columns: usize,
    rows: usize,
    maxval: u8,
}

// The three numbers, and the place of the first sample.
#[derive(Clone, Copy)]
pub(crate) struct Shape {
    pub(crate) columns: usize,
    pub(crate) rows: usize,
    pub(crate) maxval: u8,
    pub(crate) first: usize,
}

// How far a header has been read.
#[derive(Clone, Copy)]
pub(crate) struct HeaderMachine {
    stage: Stage,
    field: Field,
}

impl From<u8> for Kind {
    ghost from_gives = { λ byte kind. kind ≡ kind_of byte };

    fn from(byte: u8) -> Kind {
        match byte {
            b' ' | b'\t' | b'\n' | b'\r' => Kind::White,
            b'0'..=b'9' => Kind::Digit(byte - b'0'),
            _ => Kind::Other,
        }
    }
}

impl Field {
    fn largest(self) -> usize
        ensures { result ≡ largest_of self }
    {
        match self {
            Field::Columns | Field::Rows { .. } => 4096,
            Field::Maxval { .. } => 255,
        }
    }
}

impl HeaderMachine {
    fn new() -> Self
        ensures { (bs : List ℕ) → left result 2 bs ≡ shape_of bs }
    {
        HeaderMachine {
            stage: Stage::Opened,
            field: Field::Columns,
        }
    }

    // The white byte behind a number: keeps the number, or refuses it. Behind the maxval the header is whole.
    fn close(&mut self, start: usize, value: usize) -> Result<Option<Numbers>, ReadFault>
        ensures { Closes self.old self.new start value result }
    {
        if value < 1 || value > self.field.largest() {
            return Err(ReadFault::OutOfRange(start));
        }
        self.stage = Stage::Gap;
        self.field = match self.field {
            Field::Columns => Field::Rows { columns: value },
            Field::Rows { columns } => Field::Maxval {
                columns,
                rows: value,
            },
            Field::Maxval { columns, rows } => {
                return Ok(Some(Numbers {
                    columns,
                    rows,
                    // Proved to fit, where a TryFrom would need an error that never comes.
                    maxval: value as u8,
                }));
            }
        };
        Ok(None)
    }

    // The next byte of the header, at its place in the file; the header's numbers, if it ends there.
    fn step(&mut self, at: usize, byte: u8) -> Result<Option<Numbers>, ReadFault>
        ensures { Steps self.old self.new at byte result }
    {
        self.stage = match (self.stage, Kind::from(byte)) {
            (Stage::Opened, Kind::White) => Stage::Gap,
            (Stage::Gap, Kind::White) => Stage::Gap,
            (Stage::Gap, Kind::Digit(d)) => Stage::Digits {
                start: at,
                value: usize::from(d),
            },
            // A number too large for the type stays too large for its field.
            (Stage::Digits { start, value }, Kind::Digit(d)) => Stage::Digits {
                start,
                value: value.saturating_mul(10).saturating_add(usize::from(d)),
            },
            (Stage::Digits { start, value }, Kind::White) => return self.close(start, value),
            _ => return Err(ReadFault::Misplaced(at)),
        };
        Ok(None)
    }
}

// The header, from the byte behind `P5` on. Places still count from the start of the file.
pub(crate) fn read_shape(rest: &[u8]) -> Result<Shape, ReadFault>
    ensures { told read_fault result ≡ shape_of rest.now }
{
    let mut machine = HeaderMachine::new();
    for (i, byte) in rest.iter().enumerate() {
        if let Some(numbers) = machine.step(i + 2, *byte)? {
            return Ok(Shape {
                columns: numbers.columns,
                rows: numbers.rows,
                maxval: numbers.maxval,
                first: i + 3,
            });
        }
    }
    Err(ReadFault::Misplaced(rest.len() + 2))
}
