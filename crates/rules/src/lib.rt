// Distance rules: how far a level is from another.
#![tactic(auto)]

ghost use Rattle.std.specs.Prelude.{◌≡◌, ℕ, ◌≤◌};
ghost use Rattle.rules.specs.Distances.{gap, squares, absolute, tolerance};
ghost use Rattle.std.proofs.lemmas.Nat.{mul-le};
ghost use Rattle.std.proofs.Common.{rules};

// A distance between two levels. Any rule will do that shows the two laws; code above rests on nothing else.
pub trait DistanceRule {
    // The table of all distances; a question gets the table's number and changes nothing.
    ghost table: { Self → ℕ → ℕ → ℕ };

    fn distance(&self, a: u8, b: u8) -> u32
        ensures { result ≡ table self.now a b };

    // The two laws; above the method a ghost member would be data.
    ghost bounded: { (r : Self) (a b : ℕ) → a ≤ 255 → b ≤ 255 → table r a b ≤ 65025 };

    // A wider gap is no shorter distance.
    ghost widens: { (r : Self) (a b e f : ℕ) → a ≤ 255 → b ≤ 255 → e ≤ 255 → f ≤ 255 → gap a b ≤ gap e f → table r a b ≤ table r e f };
}

// The gap times itself.
#[derive(Clone, Copy)]
pub struct Squares;

impl DistanceRule for Squares {
    ghost table = { λ _. squares };

    ghost bounded = { Prim.search rules };

    ghost widens = { λ r a b e f _ _ _ _ h. mul-le (gap a b) (gap a b) (gap e f) (gap e f) h h };

    fn distance(&self, a: u8, b: u8) -> u32 {
        let gap = u32::from(a.abs_diff(b));
        gap * gap
    }
}

// The gap.
#[derive(Clone, Copy)]
pub struct Absolute;

impl DistanceRule for Absolute {
    ghost table = { λ _. absolute };

    ghost bounded = { Prim.search rules };

    ghost widens = { Prim.search rules };

    fn distance(&self, a: u8, b: u8) -> u32 {
        u32::from(a.abs_diff(b))
    }
}

// 1 where the gap is greater than the tolerance, else 0.
#[derive(Clone, Copy)]
pub struct Tolerance {
    pub within: u8,
}

impl DistanceRule for Tolerance {
    ghost table = { λ r. tolerance r.within };

    ghost bounded = { Prim.search rules };

    ghost widens = { Prim.search rules };

    fn distance(&self, a: u8, b: u8) -> u32 {
        u32::from(a.abs_diff(b) > self.within)
    }
}

#[cfg(test)]
mod tests {
    use super::*;

    #[test]
    fn nine_and_twelve(rt: HostRuntime) {
        assert_eq!(rt; Squares.distance(9, 12), 9);
        assert_eq!(rt; Absolute.distance(9, 12), 3);
        let near = Tolerance { within: 2 };
        assert_eq!(rt; near.distance(9, 12), 1);
        let wide = Tolerance { within: 3 };
        assert_eq!(rt; wide.distance(9, 12), 0);
    }
}
