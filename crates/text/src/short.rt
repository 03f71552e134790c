// The text, what it is put together from, and what is read of it. In clauses it is the list of its bytes.
ghost use Rattle.std.specs.Prelude.{◌≡◌, ◌≤◌, [], ◌∷◌, ◌++◌, length, decimal, MatchResult};
ghost use Rattle.text.specs.Texts.{clipped, line, copy_answer, copy_buffer};

use faults::ShortBuffer;
use std::marker::Model;

// The text is the first `used` bytes. No String, since a text is `Copy`; no ArrayVec, since the library uses no crate of the kit.
// The bytes behind the text are 0: `Model` asks that there is one way to hold each text.
#[derive(Clone, Copy)]
pub struct Text {
    bytes: [u8; 256],
    used: usize,
}

impl Model for Text {
    ghost use Rattle.std.specs.Prelude.{ℕ, ◌-◌, List, ◌++◌, length, take, replicate};
    ghost use Rattle.text.specs.Fills.{Filled, bytes-back, used-back};

    ghost Value = { List ℕ };

    ghost view = { λ t. take t.used t.bytes };

    ghost invariant = { λ t. Filled t.bytes t.used };

    ghost inverse = { λ text. record { bytes = text ++ replicate (256 - length text) 0; used = length text } };

    ghost inverse_ok = { λ t h i. record { bytes = bytes-back t.bytes t.used h i; used = used-back t.bytes t.used h i } };
}

impl Text {
    // The empty text.
    pub fn new() -> Text
        ensures { result ≡ [] }
    {
        Text {
            bytes: [0; 256],
            used: 0,
        }
    }

    // What does not fit is left out, here and below.
    pub fn push_byte(&mut self, byte: u8)
        ensures { self.new ≡ clipped (self.old ++ (byte ∷ [])) }
    {
        if self.used < 256 {
            self.bytes[self.used] = byte;
            self.used += 1;
        }
    }

    pub fn push_bytes(&mut self, bytes: &[u8])
        ensures { self.new ≡ clipped (self.old ++ bytes.now) }
    {
        // Does nothing, but where a field is read, the proof may use what each text keeps: it has at most 256 bytes.
        let _ = &self.bytes;
        for byte in bytes {
            self.push_byte(*byte);
        }
    }

    // The decimal digits by hand: no clause says that what `write!` answers is Ok, and the library uses no crate of the kit.
    pub fn push_number(&mut self, n: u64)
        ensures { self.new ≡ clipped (self.old ++ decimal n) }
    {
        if n >= 10 {
            self.push_number(n / 10);
        }
        self.push_byte(b'0' + (n % 10) as u8);
    }

    // A line: the name, the numbers with a space before each, and LF.
    pub fn push_line(&mut self, name: &[u8], numbers: &[u64])
        ensures { self.new ≡ clipped (self.old ++ line name.now numbers.now) }
    {
        self.push_bytes(name);
        for n in numbers {
            self.push_byte(b' ');
            self.push_number(*n);
        }
        self.push_byte(b'\n');
    }

    pub fn len(&self) -> usize
        ensures bytes { result ≡ length self.now }
        ensures fits { result ≤ 256 }
    {
        self.as_bytes().len()
    }

    pub fn as_bytes(&self) -> &[u8]
        ensures bytes { result.now ≡ self.now }
        ensures fits { length result.now ≤ 256 }
    {
        &self.bytes[..self.used]
    }

    // Copies the text to the front of `out`. Where it does not fit, `out` stays as it is.
    pub fn copy_to(&self, out: &mut [u8]) -> Result<usize, ShortBuffer>
        ensures answer { result ≡ copy_answer out.old self.now }
        ensures buffer { out.new ≡ copy_buffer out.old self.now }
        ensures fits { MatchResult result (λ copied. copied ≤ 256) (λ short. short.needed ≤ 256) }
    {
        let text = self.as_bytes();
        if out.len() < text.len() {
            return Err(ShortBuffer { needed: text.len() });
        }
        out[..text.len()].copy_from_slice(text);
        Ok(text.len())
    }
}

#[cfg(test)]
mod tests {
    use super::*;

    #[test]
    fn two_lines(rt: HostRuntime) {
        let mut text = Text::new();
        text.push_line(b"range", &[10, 60]);
        text.push_line(b"top", &[18446744073709551615]);
        assert!(rt; text.as_bytes() == b"range 10 60\ntop 18446744073709551615\n".as_slice());
        let mut out = [7; 38];
        assert!(rt; text.copy_to(&mut out[..36]) == Err(ShortBuffer { needed: 37 }));
        assert!(rt; text.copy_to(&mut out) == Ok(37));
        assert!(rt; out[0] == b'r' && out[36] == b'\n' && out[37] == 7);
    }

    #[test]
    fn full(rt: HostRuntime) {
        let mut text = Text::new();
        for _ in 0..30 {
            text.push_bytes(b"ten bytes.");
        }
        assert!(rt; text.len() == 256 && text.as_bytes().ends_with(b"bytes.ten by"));
    }
}
