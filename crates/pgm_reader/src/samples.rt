// Samples against the largest that may stand among them.
ghost use Rattle.std.specs.Prelude.{◌≡◌};
ghost use Rattle.pgm_reader.specs.Format.{first_above_of};

// The index of the first byte above `top`.
pub(crate) fn first_above(bytes: &[u8], top: u8) -> Option<usize>
    ensures { result ≡ first_above_of top bytes.now }
{
    bytes.iter().position(|byte| *byte > top)
}
