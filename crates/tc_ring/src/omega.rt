ghost use Rattle.std.specs.Prelude.{◌≡◌, ℕ, ◌+◌, ◌*◌, ◌^◌, ◌<◌};
ghost use Rattle.ring_laws.specs.Ring.{power};
ghost use Rattle.ring_laws.specs.Cyclotomic.{cyclotomics, plus, negative, times, ω, root2};
ghost use Rattle.tc_ring.specs.Bounds.{IsWithin};
ghost use Rattle.tc_ring.specs.Omega.{number_of};

/// The number x0 + x1·ω + x2·ω² + x3·ω³ of Z[ω], where ω⁴ = −1.
///
/// Each operation asks that the coordinates are at most 2^125 in absolute value, and says how far they can grow.
#[derive(Clone, Copy, Debug, PartialEq, Eq)]
pub struct Omega {
    /// The coordinates x0 to x3.
    pub x: [i128; 4],
}

impl Omega {
    /// The sum.
    pub fn add(self, o: Omega) -> Omega
        requires left { IsWithin (2 ^ 125) (number_of self) }
        requires right { IsWithin (2 ^ 125) (number_of o) }
        ensures value { number_of result ≡ plus (number_of self) (number_of o) }
        ensures bound { (a b : ℕ) → IsWithin a (number_of self) → IsWithin b (number_of o) → IsWithin (a + b) (number_of result) }
    {
        let [a0, a1, a2, a3] = self.x;
        let [b0, b1, b2, b3] = o.x;
        Omega {
            x: [a0 + b0, a1 + b1, a2 + b2, a3 + b3],
        }
    }

    /// The difference.
    pub fn sub(self, o: Omega) -> Omega
        requires left { IsWithin (2 ^ 125) (number_of self) }
        requires right { IsWithin (2 ^ 125) (number_of o) }
        ensures value { number_of result ≡ plus (number_of self) (negative (number_of o)) }
        ensures bound { (a b : ℕ) → IsWithin a (number_of self) → IsWithin b (number_of o) → IsWithin (a + b) (number_of result) }
    {
        let [a0, a1, a2, a3] = self.x;
        let [b0, b1, b2, b3] = o.x;
        Omega {
            x: [a0 - b0, a1 - b1, a2 - b2, a3 - b3],
        }
    }

    /// The number with its sign turned.
    pub fn neg(self) -> Omega
        requires { IsWithin (2 ^ 125) (number_of self) }
        ensures value { number_of result ≡ negative (number_of self) }
        ensures bound { (a : ℕ) → IsWithin a (number_of self) → IsWithin a (number_of result) }
    {
        let [a0, a1, a2, a3] = self.x;
        Omega {
            x: [-a0, -a1, -a2, -a3],
        }
    }

    /// The product with ω^j.
    pub fn times_omega(self, j: u8) -> Omega
        requires turns { j < 8 }
        requires small { IsWithin (2 ^ 125) (number_of self) }
        ensures value { number_of result ≡ times (power cyclotomics ω j) (number_of self) }
        ensures bound { (a : ℕ) → IsWithin a (number_of self) → IsWithin a (number_of result) }
    {
        let [a0, a1, a2, a3] = self.x;
        let x = match j {
            0 => [a0, a1, a2, a3],
            1 => [-a3, a0, a1, a2],
            2 => [-a2, -a3, a0, a1],
            3 => [-a1, -a2, -a3, a0],
            4 => [-a0, -a1, -a2, -a3],
            5 => [a3, -a0, -a1, -a2],
            6 => [a2, a3, -a0, -a1],
            _ => [a1, a2, a3, -a0],
        };
        Omega { x }
    }

    /// The product with √2 = ω − ω³.
    pub fn times_root2(self) -> Omega
        requires { IsWithin (2 ^ 125) (number_of self) }
        ensures value { number_of result ≡ times root2 (number_of self) }
        ensures bound { (a : ℕ) → IsWithin a (number_of self) → IsWithin (2 * a) (number_of result) }
    {
        let [a0, a1, a2, a3] = self.x;
        Omega {
            x: [a1 - a3, a0 + a2, a1 + a3, a2 - a0],
        }
    }
}

#[cfg(test)]
mod tests {
    use super::*;

    /// Each operation of Z[√2] and of Z[ω], once.
    #[test]
    fn operations(rt: HostRuntime) {
        let a = Omega { x: [1, -2, 3, 4] };
        let b = Omega { x: [5, 6, -7, 8] };
        let cases = [
            (a.add(b), [6, 4, -4, 12]),
            (a.sub(b), [-4, -8, 10, -4]),
            (a.neg(), [-1, 2, -3, -4]),
            (a.times_omega(0), [1, -2, 3, 4]),
            (a.times_omega(1), [-4, 1, -2, 3]),
            (a.times_omega(2), [-3, -4, 1, -2]),
            (a.times_omega(3), [2, -3, -4, 1]),
            (a.times_omega(4), [-1, 2, -3, -4]),
            (a.times_omega(5), [4, -1, 2, -3]),
            (a.times_omega(6), [3, 4, -1, 2]),
            (a.times_omega(7), [-2, 3, 4, -1]),
            (a.times_root2(), [-6, 4, 2, 2]),
            (Omega { x: [-6, 4, 2, 2] }.times_root2(), [2, -4, 6, 8]),
        ];
        for (number, want) in cases {
            assert_eq!(rt; number.x, want);
        }
    }
}
