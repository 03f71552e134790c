// What every layer calls a fault.
#![tactic(auto)]

use std::fmt;

// Why something was refused: the layer that refused it (1 reader, 2 writer, 3 station, 4 listing and fault line),
// the number of the refusal, and a detail, which is 0 where the refusal names none.
// The three numbers are the format that a fault is told in, so they are no enums.
#[derive(Clone, Copy, PartialEq, Eq, Debug)]
pub struct Fault {
    pub layer: u8,
    pub number: u8,
    pub detail: usize,
}

impl fmt::Display for Fault {
    ghost use Rattle.std.specs.Prelude.{Some};
    ghost use Rattle.faults.specs.Faults.{fault_words};

    ghost output = { λ fault. Some (fault_words fault) };

    fn fmt<W: fmt::Write>(&self, f: &mut fmt::Formatter<W>) -> fmt::Result {
        write!(f, "fault {} {} {}", self.layer, self.number, self.detail)
    }
}

// The buffer has fewer bytes than are needed; how many are.
#[derive(Clone, Copy, PartialEq, Eq, Debug)]
pub struct ShortBuffer {
    pub needed: usize,
}

#[cfg(test)]
mod tests {
    use super::*;
    use std::alloc::AllocError;

    #[test]
    fn a_fault_in_words(rt: HostRuntime) -> Result<(), AllocError> {
        let fault = Fault {
            layer: 1,
            number: 14,
            detail: 18,
        };
        assert_eq!(rt; fault.to_string(rt.alloc())?.as_str(), "fault 1 14 18");
        Ok(())
    }
}
