// The reader of a binary grey map.
ghost use Rattle.std.specs.Prelude.{◌≡◌, ◌≤◌, length};
ghost use Rattle.faults.specs.Faults.{told};
ghost use Rattle.pgm_reader.specs.Faults.{read_fault};
ghost use Rattle.pgm_reader.specs.Format.{with_samples, image_of};
ghost use Rattle.pgm_reader.specs.Grammar.{Maps};
ghost use Rattle.pgm_reader.specs.Machine.{Behind};
ghost use Rattle.pgm_reader.specs.Within.{Within};

use crate::fault::ReadFault;
use crate::header::{Shape, read_shape};
use crate::samples::first_above;

// What a file says of its picture: the samples lie from the place `first` up to, and not at, the place `end`, row by row.
#[derive(Clone, Copy, PartialEq, Eq, Debug)]
pub struct Header {
    pub columns: usize,
    pub rows: usize,
    pub maxval: u8,
    pub first: usize,
    pub end: usize,
}

// The samples of the file `bytes` behind its header.
fn read_samples(bytes: &[u8], shape: Shape) -> Result<Header, ReadFault>
    requires narrow { shape.columns ≤ 4096 }
    requires low { shape.rows ≤ 4096 }
    requires inside { shape.first ≤ length bytes.now }
    ensures { told read_fault result ≡ with_samples bytes.now shape }
{
    let Shape {
        columns,
        rows,
        maxval,
        first,
    } = shape;
    let count = columns * rows;
    if bytes.len() - first < count {
        return Err(ReadFault::SamplesMissing(bytes.len()));
    }
    let end = first + count;
    match first_above(&bytes[first..end], maxval) {
        Some(i) => Err(ReadFault::AboveMaxval(first + i)),
        None => Ok(Header {
            columns,
            rows,
            maxval,
            first,
            end,
        }),
    }
}

// The file `bytes` from `rest` on, which is what follows its `P5`.
fn read_behind(bytes: &[u8], rest: &[u8]) -> Result<Header, ReadFault>
    requires { Behind bytes.now rest.now }
    ensures answer { told read_fault result ≡ image_of bytes.now }
    ensures grammar { Maps bytes.now result }
    ensures within { Within bytes.now result }
{
    let shape = read_shape(rest)?;
    read_samples(bytes, shape)
}

// The header of a binary grey map whose samples are all there and none above its maxval.
#[tactic(auto, unfolding(crate::specs::Format::image_of))]
pub fn read(bytes: &[u8]) -> Result<Header, ReadFault>
    ensures answer { told read_fault result ≡ image_of bytes.now }
    ensures grammar { Maps bytes.now result }
    ensures within { Within bytes.now result }
{
    match bytes {
        [b'P', b'5', rest @ ..] => read_behind(bytes, rest),
        _ => Err(ReadFault::NotP5),
    }
}

#[cfg(test)]
mod tests {
    use super::*;

    #[test]
    fn answers_header_and_places(rt: HostRuntime) {
        let header = Header {
            columns: 4,
            rows: 2,
            maxval: 255,
            first: 11,
            end: 19,
        };
        assert_eq!(rt;
            read(b"P5 4 2 255\n\x00\x01\x02\x03\xfc\xfd\xfe\xff"),
            Ok(header)
        );
        assert_eq!(rt; read(b"P5 4 2 255\nabcdefgh, and more"), Ok(header));
    }

    #[test]
    fn takes_leading_zeros_and_any_white_bytes(rt: HostRuntime) {
        let header = Header {
            columns: 1,
            rows: 2,
            maxval: 9,
            first: 18,
            end: 20,
        };
        assert_eq!(rt; read(b"P5\t \r\n0000001\n2 9\n\x09\x00"), Ok(header));
    }

    #[test]
    fn refuses_in_byte_order(rt: HostRuntime) {
        assert_eq!(rt; read(b"P2 4 2 255\n"), Err(ReadFault::NotP5));
        assert_eq!(rt; read(b"P5 4 2x255\n"), Err(ReadFault::Misplaced(6)));
        assert_eq!(rt; read(b"P5 4 2 255"), Err(ReadFault::Misplaced(10)));
        assert_eq!(rt; read(b"P5 0 2 255\n"), Err(ReadFault::OutOfRange(3)));
        assert_eq!(rt;
            read(b"P5 4 2 99999999999999999999999999\n"),
            Err(ReadFault::OutOfRange(7))
        );
    }

    #[test]
    fn refuses_missing_and_bright_samples(rt: HostRuntime) {
        assert_eq!(rt;
            read(b"P5 4 2 255\nabcdefg"),
            Err(ReadFault::SamplesMissing(18))
        );
        assert_eq!(rt;
            read(b"P5 4 1 9\n\x00\x09\x0a\x0b"),
            Err(ReadFault::AboveMaxval(11))
        );
    }
}
