// Loads on a hopper made from the vertical filling pressure at the wall's foot. Source 001, clause 5.2.1.3.
#![tactic(auto)]

ghost use Rattle.std.specs.Prelude.{◌≡◌, ◌+◌, ◌*◌, ◌^◌, ◌<◌, ◌≤◌};
ghost use Rattle.fraction.specs.Fraction.{◌⊘◌, up};
ghost use Rattle.janssen.specs.Filling.{grain_of};
ghost use Rattle.janssen.specs.program.Range.{InRange};
ghost use Rattle.hopper.specs.Hopper.{B, n3, P_n, P_t};

use fraction::Quotient;
use janssen::{Pascals, Product, Section};

// n·factor²/d rounded up once.
fn squared_up(n: u64, d: u64, factor: u64) -> u64
    requires { (0 < d) × (d ≤ 400000000000) × (n ≤ 2587500 * d) × (factor ≤ 25000) }
    ensures { result ≡ up ((n * (factor * factor)) ⊘ d) }
{
    Quotient::of(n, d).times(factor).times(factor).rounded_up()
}

// A length's square, mm².
fn square(x: u64) -> u64
    requires { x ≤ 25000 }
    ensures { (result ≡ x * x) × (result ≤ 625000000) }
{
    x * x
}

// A hopper's slope: its height H and its run r, mm.
#[derive(Clone, Copy)]
pub struct Slope {
    pub height: u64,
    pub run: u64,
    pub ghost height_most: { height ≤ 25000 },
    pub ghost run_least: { 0 < run },
    pub ghost run_most: { run ≤ 25000 },
}

impl Slope {
    // B, Pa, from the sides, mm, and γ·Ks, hundredths of N/m³.
    #[tactic(auto, using(crate::proofs::Hopper::nested))]
    fn base_of_sides(self, a: u64, b: u64, stored: u64) -> u64
        requires { (0 < a) × (a ≤ 50000) × (b ≤ 50000) × (stored ≤ 3000000) }
        ensures { result ≡ up ((69 * a * b * stored * (self.height * self.height)) ⊘ (4000000 * (a + b) * (self.height * self.height + self.run * self.run))) }
    {
        let top = squared_up(69 * a * b * stored, 4000000 * (a + b), self.height);
        fraction::quotient_up(top, square(self.height) + square(self.run))
    }

    // B, Pa.
    pub fn base(self, section: Section, product: Product) -> u64
        requires { InRange section (grain_of product) }
        ensures { (result ≡ B section (grain_of product) self.height self.run) × (result ≤ 2587500) }
    {
        let a = section.side_a();
        let b = section.side_b();
        self.base_of_sides(a, b, product.weight * product.ratio)
    }

    // P_n from n3 and p_vf at the wall's foot, k quarters of the slope up from the outlet.
    pub fn normal(self, k: u64, filling: u64, vertical: Pascals) -> Pascals
        requires { (k ≤ 4) × (filling ≤ 10350000) × (vertical.0 < 2 ^ 25) }
        ensures { (result.0 ≡ P_n self.height self.run k filling vertical.0) × (result.0 ≤ 2 ^ 26) }
    {
        let rise = square(self.height);
        let across = square(self.run);
        let parts = 24 * across + 5 * k * rise;
        let load = fraction::quotient_up(vertical.0 as u64 * parts, 20 * (rise + across));
        Pascals((filling + load) as u32)
    }
}

// n3, Pa, from the mean μ, hundredths, and B. It halves a range of numbers: there is no slice for the library to search.
#[tactic(auto, using(crate::proofs::Root::n3_unique, crate::proofs::Root::square_le))]
pub fn hopper_filling(friction: u64, base: u64) -> u64
    requires { (10 ≤ friction) × (friction ≤ 100) × (base ≤ 2587500) }
    ensures { (result ≡ n3 friction base) × (result ≤ 4 * base) }
{
    let due = 1000 * base * base;
    let mut low = 0;
    let mut high = 4 * base;
    while low < high {
        let middle = low + (high - low) / 2;
        if 9 * friction * middle * middle < due {
            low = middle + 1;
        } else {
            high = middle;
        }
    }
    high
}

// P_t from the mean μ, hundredths, and P_n.
#[tactic(auto, unfolding(crate::specs::Hopper::P_t), using(crate::proofs::Hopper::P_t_range))]
pub fn hopper_friction(friction: u64, normal: Pascals) -> Pascals
    requires { (friction ≤ 100) × (normal.0 ≤ 2 ^ 26) }
    ensures { result.0 ≡ P_t friction normal.0 }
{
    Pascals(fraction::quotient_up(normal.0 as u64 * 115 * friction, 10000) as u32)
}
