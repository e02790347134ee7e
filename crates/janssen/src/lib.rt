// Filling pressures by Janssen's formula. Source 001, clauses 5.2.1 and 7.3.
#![tactic(auto)]

ghost use Rattle.std.specs.Prelude.{◌≡◌, ◌+◌, ◌-◌, ◌*◌, ◌/◌, ◌^◌, ◌<◌, ◌≤◌};
ghost use Rattle.fraction.specs.Fraction.{◌⊘◌, up};
ghost use Rattle.janssen.specs.Section.{side_a, side_b, d_c};
ghost use Rattle.janssen.specs.Filling.{grain_of};
ghost use Rattle.janssen.specs.program.Range.{Within, InRange};
ghost use Rattle.janssen.specs.program.Pressure.{decay, pressure, loaded_depth, load};
ghost use Rattle.janssen.specs.program.Prepare.{prepared_for, pressure_on, loads_on, Reaches, AllReach};

// The cross-section, mm.
#[derive(Clone, Copy)]
pub enum Section {
    Circle(u64),
    Rectangle(u64, u64),
}

// The stored product.
#[derive(Clone, Copy)]
pub struct Product {
    // γ, N/m³
    pub weight: u64,
    // mean horizontal to vertical pressure ratio Ks, hundredths
    pub ratio: u64,
    // mean wall friction μ, hundredths
    pub friction: u64,
    // magnifier C0, hundredths
    pub factor: u64,
}

// A pressure.
#[derive(Clone, Copy)]
pub struct Pascals(pub u32);

// A load for each metre of the wall's perimeter.
#[derive(Clone, Copy)]
pub struct NewtonsPerMetre(pub u32);

// What a filling pressure takes from section and product.
#[derive(Clone, Copy)]
pub struct Curve {
    // q for each mm, 2^-55
    pub step: u64,
    // the pressure's deep limit P, 2^-11 Pa
    pub limit: u64,
}

// What the filling loads take from section and product, worked out once.
#[derive(Clone, Copy)]
pub struct Prepared {
    pub horizontal: Curve,
    pub vertical: Curve,
    pub wall_friction: Curve,
    // z0 of P_w, 2^-11 mm
    pub z0: u64,
}

// The filling loads at a depth.
#[derive(Clone, Copy)]
pub struct FillingLoads {
    // p_hf
    pub horizontal: Pascals,
    // p_wf
    pub wall_friction: Pascals,
    // p_vf
    pub vertical: Pascals,
    // P_w
    pub wall_load: NewtonsPerMetre,
}

impl Section {
    // The sides a and b, mm; a circle's are both its diameter.
    #[tactic(auto, unfolding(crate::specs::Section::side_a))]
    pub fn side_a(self) -> u64
        ensures { result ≡ side_a self }
    {
        match self {
            Section::Circle(d) => d,
            Section::Rectangle(a, _) => a,
        }
    }

    #[tactic(auto, unfolding(crate::specs::Section::side_b))]
    pub fn side_b(self) -> u64
        ensures { result ≡ side_b self }
    {
        match self {
            Section::Circle(d) => d,
            Section::Rectangle(_, b) => b,
        }
    }

    // d_c, mm.
    #[tactic(auto, unfolding(crate::specs::Section::d_c))]
    pub fn shorter_side(self) -> u64
        ensures { (result ≡ d_c self) × (result ≤ side_a self) }
    {
        self.side_a().min(self.side_b())
    }
}

// The sides of a section in its range, mm.
#[derive(Clone, Copy)]
struct Sides {
    a: u64,
    b: u64,
    ghost a_in: { Within 500 50000 a },
    ghost b_in: { Within 500 50000 b },
}

impl Sides {
    // q for each mm in 2^-55, rounded up. The two factors of the load's row multiply to row·25/10,000, and `both` is Ks·μ in 1/10,000.
    fn step(self, row: u64, both: u64) -> u64
        requires { (row ≤ 529) × (both ≤ 10000) }
        ensures { result ≡ up ((row * both * (self.a + self.b) * 2048 ^ 5) ⊘ (2000000 * (self.a * self.b))) }
    {
        fraction::digits_up(
            row * both * (self.a + self.b),
            2000000 * (self.a * self.b),
            5,
        )
    }

    // P in 2^-11 Pa, rounded up: times·γ·a·b / (over·(a + b)·by).
    #[tactic(auto, using(crate::proofs::PreparedNumbers::weighed_most))]
    fn limit(self, times: u64, over: u64, by: u64, weight: u64) -> u64
        requires { (times ≤ 500) × Within 1 2000 over × Within 1 10000 by × (weight ≤ 30000) }
        ensures { result ≡ up ((times * (weight * (self.a * self.b)) * 2048 ^ 1) ⊘ (over * ((self.a + self.b) * by))) }
    {
        fraction::digits_up(
            times * (weight * (self.a * self.b)),
            over * ((self.a + self.b) * by),
            1,
        )
    }

    // z0 of P_w in 2^-11 mm, rounded down.
    fn z0(self, both: u64) -> u64
        requires { Within 1 10000 both }
        ensures { result ≡ 2000000 * (self.a * self.b) * 2048 ^ 1 / (529 * both * (self.a + self.b)) }
    {
        fraction::digits_down(
            2000000 * (self.a * self.b),
            529 * both * (self.a + self.b),
            1,
        )
    }
}

impl Prepared {
    // For a section and a product in their ranges.
    pub fn of(section: Section, product: Product) -> Prepared
        requires { InRange section (grain_of product) }
        ensures { result ≡ prepared_for section (grain_of product) }
    {
        let sides = Sides {
            a: section.side_a(),
            b: section.side_b(),
        };
        let weight = product.weight;
        let friction = product.friction;
        let both = product.ratio * friction;
        Prepared {
            horizontal: Curve {
                step: sides.step(414, both),
                limit: sides.limit(1, 18, friction, weight),
            },
            vertical: Curve {
                step: sides.step(324, both),
                limit: sides.limit(500, 81, both, weight),
            },
            wall_friction: Curve {
                step: sides.step(529, both),
                limit: sides.limit(1, 2000, 1, weight),
            },
            z0: sides.z0(both),
        }
    }

    // The filling loads at the depth z mm.
    pub fn loads_at(&self, z: u64) -> FillingLoads
        requires { AllReach self.now z }
        ensures { (result ≡ loads_on self.now z) × (result.horizontal.0 < 2 ^ 25) × (result.wall_friction.0 < 2 ^ 25) }
    {
        let wall = self.wall_friction;
        let decay = decay_at(wall.step, z);
        FillingLoads {
            horizontal: self.horizontal.at(z),
            wall_friction: pressure_of(wall.limit, decay),
            vertical: self.vertical.at(z),
            wall_load: load_of(wall.limit, loaded_depth(self.z0, decay, z)),
        }
    }
}

impl Curve {
    // The filling pressure at the depth z mm: p_hf, p_wf or p_vf, by the curve of its kind.
    pub fn at(self, z: u64) -> Pascals
        requires { Reaches self z }
        ensures { (result.0 ≡ pressure_on self z) × (result.0 < 2 ^ 25) }
    {
        pressure_of(self.limit, decay_at(self.step, z))
    }
}

// 2^40·e^(-q) from below at the depth z mm.
#[tactic(auto, unfolding(crate::specs::program::Pressure::decay_by))]
fn decay_at(step: u64, z: u64) -> u64
    requires { (z * step < 2 ^ 64) × (up ((z * step) ⊘ 2 ^ 22) < 53 * 2 ^ 33) }
    ensures { (result ≡ decay step z) × (result ≤ 2 ^ 40) }
{
    exponential::lower_bound(fraction::quotient_up(z * step, 4194304))
}

// P·(1 - e^(-q)), rounded up.
#[tactic(auto, using(crate::proofs::Ready::pressure_fits), unfolding(crate::specs::program::Pressure::pressure))]
fn pressure_of(limit: u64, decay: u64) -> Pascals
    requires { (limit ≤ 2 ^ 36 - 2 ^ 11) × (decay ≤ 2 ^ 40) }
    ensures { (result.0 ≡ pressure limit decay) × (result.0 < 2 ^ 25) }
{
    let p = fraction::product_shifted_up(limit, 1099511627776 - decay);
    Pascals(p as u32)
}

// z - z0·(1 - e^(-q)) in 2^-11 mm, from above.
fn loaded_depth(z0: u64, decay: u64, z: u64) -> u64
    requires { (z0 < 2 ^ 36) × (decay ≤ 2 ^ 40) × (z ≤ 2 ^ 17) }
    ensures { (result ≡ loaded_depth z0 decay z) × (result ≤ 2 ^ 28) }
{
    let gone = 1099511627776 - decay;
    let sure = gone.saturating_sub(512);
    let carried = fraction::product_quotient(sure, z0, 1099511627776);
    (z * 2048).saturating_sub(carried)
}

// γR·(z - z0·(1 - e^(-q))), rounded up.
#[tactic(auto, using(crate::proofs::Ready::load_product, crate::proofs::Ready::load_fits), unfolding(crate::specs::program::Pressure::load))]
fn load_of(limit: u64, depth: u64) -> NewtonsPerMetre
    requires { (limit < 2 ^ 30) × (depth ≤ 2 ^ 28) }
    ensures { result.0 ≡ load limit depth }
{
    let w = fraction::quotient_up(limit * depth, 4194304000);
    NewtonsPerMetre(w as u32)
}
