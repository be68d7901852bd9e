ghost use Rattle.std.specs.Prelude.{◌≡◌, ℕ, ◌+◌, ◌*◌, ◌^◌, ◌↔◌, IsNone, IfSome};
ghost use Rattle.tc_ring.specs.Root2.{surd_of};
ghost use Rattle.tc_ring.specs.Surds.{Surd, surd_plus, surd_negative, surd_times, root2_surd, SurdWithin, IsOdd};

/// The number a + b·√2 of Z[√2].
///
/// Its order is by a, and then by b. That isn't the order of the real numbers.
#[derive(Clone, Copy, Debug, PartialEq, Eq, PartialOrd, Ord)]
pub struct Root2 {
    /// The whole part.
    pub a: i64,
    /// The coefficient of √2.
    pub b: i64,
}

impl Root2 {
    /// The sum.
    #[inline]
    pub fn add(self, o: Root2) -> Root2
        requires left { SurdWithin (2 ^ 61) (surd_of self) }
        requires right { SurdWithin (2 ^ 61) (surd_of o) }
        ensures value { surd_of result ≡ surd_plus (surd_of self) (surd_of o) }
        ensures bound { (a b : ℕ) → SurdWithin a (surd_of self) → SurdWithin b (surd_of o) → SurdWithin (a + b) (surd_of result) }
    {
        Root2 {
            a: self.a + o.a,
            b: self.b + o.b,
        }
    }

    /// The difference.
    #[inline]
    pub fn sub(self, o: Root2) -> Root2
        requires left { SurdWithin (2 ^ 61) (surd_of self) }
        requires right { SurdWithin (2 ^ 61) (surd_of o) }
        ensures value { surd_of result ≡ surd_plus (surd_of self) (surd_negative (surd_of o)) }
        ensures bound { (a b : ℕ) → SurdWithin a (surd_of self) → SurdWithin b (surd_of o) → SurdWithin (a + b) (surd_of result) }
    {
        Root2 {
            a: self.a - o.a,
            b: self.b - o.b,
        }
    }

    /// The number with its sign turned.
    #[inline]
    pub fn neg(self) -> Root2
        requires { SurdWithin (2 ^ 62) (surd_of self) }
        ensures value { surd_of result ≡ surd_negative (surd_of self) }
        ensures bound { (a : ℕ) → SurdWithin a (surd_of self) → SurdWithin a (surd_of result) }
    {
        Root2 {
            a: -self.a,
            b: -self.b,
        }
    }

    /// The product with √2: 2b + a·√2.
    #[inline]
    pub fn times_root2(self) -> Root2
        requires { SurdWithin (2 ^ 61) (surd_of self) }
        ensures value { surd_of result ≡ surd_times root2_surd (surd_of self) }
        ensures bound { (a : ℕ) → SurdWithin a (surd_of self) → SurdWithin (2 * a) (surd_of result) }
    {
        Root2 {
            a: 2 * self.b,
            b: self.a,
        }
    }

    /// The quotient by √2: b + (a/2)·√2. `None` where a is odd, which is where no number of Z[√2] is the quotient.
    #[inline]
    pub fn half_root2(self) -> Option<Root2>
        ensures some { IfSome result (λ half. surd_times root2_surd (surd_of half) ≡ surd_of self) }
        ensures none { IsNone result ↔ IsOdd self.a }
        ensures no_quotient { IsNone result → (x : Surd) → surd_times root2_surd x ≡ surd_of self → ⊥ }
    {
        if self.a % 2 == 0 {
            Some(Root2 {
                a: self.b,
                b: self.a / 2,
            })
        } else {
            None
        }
    }
}
