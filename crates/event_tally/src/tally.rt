//! The drivers of one bit, counted.

ghost use Rattle.std.specs.Prelude.{ℕ, ◌≡◌, ◌∷◌, List, replicate};
ghost use Rattle.rtl_bits.specs.declared.Bit.{Bit};
ghost use Rattle.rtl_bits.specs.Bit.{resolve_bit};
ghost use Rattle.rtl_bits.specs.Bits.{reduced};
ghost use Rattle.event_tally.specs.Tallies.{HasRoom, IsTally, IsTallyWith};

use rtl_bits::Bit;

/// How many drivers of a bit are at 0, at 1 and at x. Those at z don't count.
#[derive(Clone, Copy, Drop)]
pub struct Tally {
    pub zeros: u32,
    pub ones: u32,
    pub unknowns: u32,
}

impl Tally {
    /// The tally of drivers that are all at z.
    pub fn none() -> Tally
        ensures { (n : ℕ) → IsTally (replicate n Bit.Z) result }
    {
        Tally {
            zeros: 0,
            ones: 0,
            unknowns: 0,
        }
    }

    /// What the drivers give together.
    pub fn bit(self) -> Bit
        ensures { (bits : List Bit) → IsTally bits self → result ≡ reduced resolve_bit Bit.Z bits }
    {
        if self.unknowns > 0 {
            return Bit::X;
        }
        if self.zeros > 0 {
            if self.ones > 0 {
                return Bit::X;
            }
            return Bit::Zero;
        }
        if self.ones > 0 {
            return Bit::One;
        }
        Bit::Z
    }

    /// The tally where one driver changes.
    pub fn moved(self, old: Bit, new: Bit) -> Tally
        requires { IsTallyWith old self }
        ensures { (others : List Bit) → IsTally (old ∷ others) self
            → IsTally (new ∷ others) result }
    {
        self.without(old).with(new)
    }

    /// The tally of the others.
    fn without(self, bit: Bit) -> Tally
        requires { IsTallyWith bit self }
        ensures tally { (others : List Bit) → IsTally (bit ∷ others) self → IsTally others result }
        ensures room { HasRoom result }
    {
        match bit {
            Bit::Zero => Tally {
                zeros: self.zeros - 1,
                ..self
            },
            Bit::One => Tally {
                ones: self.ones - 1,
                ..self
            },
            Bit::X => Tally {
                unknowns: self.unknowns - 1,
                ..self
            },
            Bit::Z => self,
        }
    }

    /// The tally with one more.
    fn with(self, bit: Bit) -> Tally
        requires { HasRoom self }
        ensures { (others : List Bit) → IsTally others self → IsTally (bit ∷ others) result }
    {
        match bit {
            Bit::Zero => Tally {
                zeros: self.zeros + 1,
                ..self
            },
            Bit::One => Tally {
                ones: self.ones + 1,
                ..self
            },
            Bit::X => Tally {
                unknowns: self.unknowns + 1,
                ..self
            },
            Bit::Z => self,
        }
    }
}
