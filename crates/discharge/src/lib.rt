// Loads on wall and flat floor made from filling pressures. Source 001, clauses 5.2.1.2, 5.2.2.1 and 5.3.
#![tactic(auto)]

ghost use Rattle.std.specs.Prelude.{◌≡◌, ◌*◌, ◌^◌, ◌<◌, ◌≤◌, max};
ghost use Rattle.discharge.specs.Discharge.{magnifier, magnified_load, patch_load, C_b};
ghost use Rattle.discharge.specs.program.Magnifier.{horizontal_magnifier, friction_magnifier, held, Moderate};
ghost use Rattle.fraction.specs.Fraction.{◌⊘◌};

use janssen::Pascals;

// What a filling pressure is multiplied by: top/bottom.
#[derive(Clone, Copy)]
pub struct Magnifier {
    pub top: u64,
    pub bottom: u64,
}

impl Magnifier {
    // A filling pressure times its magnifier, rounded up: p_he from p_hf and C_h, p_we from p_wf and C_w.
    #[tactic(auto, using(crate::proofs::Discharge::magnified_load_divided, crate::proofs::Discharge::magnified_load_range))]
    pub fn magnified(self, filling: Pascals) -> Pascals
        requires { Moderate self × (filling.0 < 2 ^ 25) }
        ensures { (result.0 ≡ magnified_load (self.top ⊘ self.bottom) filling.0) × (result.0 ≤ 2 ^ 26) }
    {
        Pascals(fraction::quotient_up(self.top * filling.0 as u64, self.bottom) as u32)
    }
}

// A silo's h and d = d_c, mm.
#[derive(Clone, Copy)]
pub struct Slenderness {
    pub height: u64,
    pub width: u64,
    pub ghost height_most: { height ≤ 2 ^ 18 },
    pub ghost width_most: { width ≤ 50000 },
}

impl Slenderness {
    // By the silo's kind: c where it is slender, 1 + rate·(h/d - 1) or 1 where it is squat; c and rate in hundredths.
    fn by_kind(self, c: u64, rate: u64) -> Magnifier
        requires { rate ≤ 200 }
        ensures { result ≡ held (magnifier c rate self.height self.width) }
    {
        let h = self.height;
        let d = self.width;
        if 3 * d <= 2 * h {
            return Magnifier {
                top: c,
                bottom: 100,
            };
        }
        if d < h {
            return Magnifier {
                top: 100 * d + rate * (h - d),
                bottom: 100 * d,
            };
        }
        Magnifier { top: 1, bottom: 1 }
    }

    // C_h; factor is C0 in hundredths.
    pub fn horizontal_magnifier(self, factor: u64) -> Magnifier
        requires { (100 ≤ factor) × (factor ≤ 200) }
        ensures { result ≡ held (horizontal_magnifier factor self.height self.width) }
    {
        self.by_kind(factor, 2 * (factor - 100))
    }

    // C_w.
    pub fn friction_magnifier(self) -> Magnifier
        ensures { result ≡ held (friction_magnifier self.height self.width) }
    {
        self.by_kind(110, 20)
    }
}

// e, mm: the larger of the eccentricities of filling and outlet.
pub fn eccentricity(filling: u64, outlet: u64) -> u64
    ensures { result ≡ max filling outlet }
{
    filling.max(outlet)
}

// p_p from p_he; e and d = d_c in mm.
#[tactic(auto, using(crate::proofs::Discharge::patch_load_divided, crate::proofs::Discharge::patch_load_range))]
pub fn patch(e: u64, d: u64, horizontal: Pascals) -> Pascals
    requires { (0 < d) × (d ≤ 50000) × (4 * e ≤ d) × (horizontal.0 ≤ 2 ^ 26) }
    ensures { result.0 ≡ patch_load e d horizontal.0 }
{
    Pascals(fraction::quotient_up((d + 4 * e) * horizontal.0 as u64, 5 * d) as u32)
}

// The load on a flat floor from p_vf at the wall's foot.
pub fn floor(filling: Pascals) -> Pascals
    requires { filling.0 < 2 ^ 25 }
    ensures { result.0 ≡ magnified_load C_b filling.0 }
{
    let c_b = Magnifier {
        top: 12,
        bottom: 10,
    };
    c_b.magnified(filling)
}
