// The numbers of the loads: of a depth, of the bottom, of a strake.
#![tactic(auto)]

ghost use Rattle.std.specs.Prelude.{◌≡◌, ◌++◌, map, ◌^◌, ◌<◌, ◌≤◌};
ghost use Rattle.loads.specs.Load.{load_depth, load_number, quarters, normal_number, friction_number, bottom_numbers};
ghost use Rattle.loads.specs.Load.Load.{p_vf, p_he, p_p};
ghost use Rattle.loads.specs.program.Basis.{Reached, Fits, depth_numbers};
ghost use Rattle.loads.specs.Load.{C_h, C_w};
ghost use Rattle.discharge.specs.program.Magnifier.{held};
ghost use Rattle.hopper.specs.Hopper.{P_n, P_t};
ghost use Rattle.janssen.specs.Section.{d_c};
ghost use Rattle.janssen.specs.Filling.{grain_of};
ghost use Rattle.janssen.specs.program.Pressure.{computed};
ghost use Rattle.janssen.specs.program.Prepare.{prepared_for};

use discharge::{Magnifier, Slenderness};
use hopper::Slope;
use janssen::{Pascals, Prepared, Product, Section};

// A silo as its loads see it.
#[derive(Clone, Copy)]
pub struct Silo {
    pub section: Section,
    pub product: Product,
    // e, the larger of e_i and e_o, mm
    pub eccentricity: u64,
    // H and r, mm
    pub height: u64,
    pub run: u64,
    // V, the wall's foot, mm below the brim
    pub foot: u64,
    // g, from the brim down to the grain's surface, mm
    pub headroom: u64,
}

impl Silo {
    // The depth at which the loads z mm below the brim are worked out, mm below the grain's surface; 0 above it.
    #[tactic(auto, unfolding(crate::specs::Load::load_depth))]
    fn load_depth(&self, z: u64) -> u64
        ensures { result ≡ load_depth self.now z }
    {
        z.saturating_sub(self.headroom)
    }

    // P_n and then P_t at the five quarters, from p_vf at the wall's foot.
    fn hopper_numbers(&self, vertical: Pascals) -> [u32; 10]
        requires { Fits self.now × (0 < self.now.run) × (vertical.0 ≡ load_number computed self.now p_vf self.now.foot) × (vertical.0 < 2 ^ 25) }
        ensures { result ≡ map (normal_number computed self.now) quarters ++ map (friction_number computed self.now) quarters }
    {
        let slope = Slope {
            height: self.height,
            run: self.run,
        };
        let friction = self.product.friction;
        let base = slope.base(self.section, self.product);
        let filling = hopper::hopper_filling(friction, base);
        let at = |k: u64| quarter(slope, k, friction, filling, vertical);
        let outlet = at(0);
        let first = at(1);
        let second = at(2);
        let third = at(3);
        let top = at(4);
        [
            outlet.normal.0,
            first.normal.0,
            second.normal.0,
            third.normal.0,
            top.normal.0,
            outlet.friction.0,
            first.friction.0,
            second.friction.0,
            third.friction.0,
            top.friction.0,
        ]
    }
}

// The hopper's loads at one place of its slope.
#[derive(Clone, Copy)]
pub struct HopperLoads {
    // P_n
    pub normal: Pascals,
    // P_t
    pub friction: Pascals,
}

// P_n and P_t at k quarters of the slope; friction is the mean μ in hundredths, filling is n3, Pa.
fn quarter(slope: Slope, k: u64, friction: u64, filling: u64, vertical: Pascals) -> HopperLoads
    requires { (k ≤ 4) × (friction ≤ 100) × (filling ≤ 10350000) × (vertical.0 < 2 ^ 25) }
    ensures { (result.normal.0 ≡ P_n slope.height slope.run k filling vertical.0) × (result.friction.0 ≡ P_t friction (P_n slope.height slope.run k filling vertical.0)) }
{
    let normal = slope.normal(k, filling, vertical);
    let friction = hopper::hopper_friction(friction, normal);
    HopperLoads { normal, friction }
}

// What is worked out once for a silo, inside its ranges.
#[derive(Clone, Copy)]
pub struct Basis {
    pub silo: Silo,
    pub prepared: Prepared,
    // d_c, mm
    pub dc: u64,
    // C_h and C_w
    pub horizontal: Magnifier,
    pub friction: Magnifier,
    pub ghost fits: { Fits silo },
    pub ghost prepared_is: { prepared ≡ prepared_for silo.section (grain_of silo.product) },
    pub ghost dc_is: { dc ≡ d_c silo.section },
    pub ghost horizontal_is: { horizontal ≡ held (C_h silo) },
    pub ghost friction_is: { friction ≡ held (C_w silo) },
}

impl Basis {
    pub fn of(silo: Silo) -> Basis
        requires { Fits silo }
        ensures { result.silo ≡ silo }
    {
        let prepared = Prepared::of(silo.section, silo.product);
        let dc = silo.section.shorter_side();
        let slenderness = Slenderness {
            height: silo.load_depth(silo.foot) + silo.height,
            width: dc,
        };
        Basis {
            silo,
            prepared,
            dc,
            horizontal: slenderness.horizontal_magnifier(silo.product.factor),
            friction: slenderness.friction_magnifier(),
        }
    }

    // The eight numbers of the depth z mm below the brim.
    #[tactic(auto, unfolding(crate::specs::program::Basis::depth_numbers, janssen::specs::program::Pressure::filling_by, janssen::specs::program::Pressure::wall_load_by))]
    pub fn depth_numbers(&self, z: u64) -> [u32; 8]
        requires { Reached self.now.silo z × (z < 4294967296) }
        ensures { result ≡ depth_numbers self.now.silo z }
    {
        let depth = self.silo.load_depth(z);
        let filling = self.prepared.loads_at(depth);
        let p_he = self.horizontal.magnified(filling.horizontal);
        let p_we = self.friction.magnified(filling.wall_friction);
        let p_p = discharge::patch(self.silo.eccentricity, self.dc, p_he);
        [
            z as u32,
            filling.horizontal.0,
            filling.wall_friction.0,
            filling.vertical.0,
            filling.wall_load.0,
            p_he.0,
            p_we.0,
            p_p.0,
        ]
    }

    // The ten numbers of the bottom; no run is a flat floor.
    #[tactic(auto, using(crate::proofs::LoadLaws::bottom_flat, crate::proofs::LoadLaws::bottom_hopper), unfolding(janssen::specs::program::Pressure::filling_by))]
    pub fn bottom_numbers(&self) -> [u32; 10]
        ensures { result ≡ bottom_numbers computed self.now.silo }
    {
        let depth = self.silo.load_depth(self.silo.foot);
        let vertical = self.prepared.vertical.at(depth);
        if self.silo.run == 0 {
            let floor = discharge::floor(vertical);
            return [floor.0, 0, 0, 0, 0, 0, 0, 0, 0, 0];
        }
        self.silo.hopper_numbers(vertical)
    }

    // p_he z mm below the brim; a strake's number is the one at its lower edge. Inlined, as a call would add 8 to a strake's 110 instructions.
    #[tactic(auto, unfolding(janssen::specs::program::Pressure::filling_by))]
    #[inline]
    pub fn horizontal_discharge(&self, z: u64) -> Pascals
        requires { Reached self.now.silo z }
        ensures { (result.0 ≡ load_number computed self.now.silo p_he z) × (result.0 ≤ 2 ^ 26) }
    {
        let depth = self.silo.load_depth(z);
        let p_hf = self.prepared.horizontal.at(depth);
        self.horizontal.magnified(p_hf)
    }

    // p_p z mm below the brim.
    pub fn patch_load(&self, z: u64) -> Pascals
        requires { Reached self.now.silo z }
        ensures { result.0 ≡ load_number computed self.now.silo p_p z }
    {
        let p_he = self.horizontal_discharge(z);
        discharge::patch(self.silo.eccentricity, self.dc, p_he)
    }
}
