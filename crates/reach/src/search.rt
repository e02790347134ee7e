// The greatest depth at which p_he is not above a pressure: p_he never falls going down, so halving finds it. Depths in mm below the brim.
ghost use Rattle.std.specs.Prelude.{◌≡◌, ◌-◌, ◌*◌, ◌^◌, ◌<◌, ◌≤◌, length};
ghost use Rattle.janssen.specs.program.Pressure.{computed};
ghost use Rattle.reach.specs.Reach.{p_he_of, Deepest, Depths};
ghost use Rattle.reach.specs.Order.{NeverFalls};
ghost use Rattle.reach.specs.program.Search.{Between};

use loads::Basis;

// Two depths: at `low` p_he is not above the pressure, below `high` it is, down to the foot.
#[derive(Clone, Copy)]
pub struct Bracket {
    pub low: u64,
    pub high: u64,
}

// A search down the wall of a silo, whose foot is under 2^17 mm.
#[derive(Clone, Copy)]
pub struct Search<'a> {
    pub basis: &'a Basis,
    pub ghost foot_near: { basis.now.silo.foot < 2 ^ 17 },
}

impl Search<'_> {
    // One halving, with one evaluation of p_he; the pressure in Pa.
    #[tactic(auto, using(crate::proofs::PressureLaws::reached, crate::proofs::PressureLaws::goes_down, crate::proofs::Halving::carried, crate::proofs::Halving::not_carried))]
    fn halved(&self, pressure: u32, bracket: Bracket) -> Bracket
        requires { Between (p_he_of computed self.now.basis.now.silo) self.now.basis.now.silo.foot pressure bracket × (bracket.low < bracket.high) }
        ensures { Between (p_he_of computed self.now.basis.now.silo) self.now.basis.now.silo.foot pressure result × (bracket.low ≤ result.low) × (2 * (result.high - result.low) ≤ bracket.high - bracket.low) }
    {
        let Bracket { low, high } = bracket;
        let middle = low + (high - low + 1) / 2;
        let p_he = self.basis.horizontal_discharge(middle);
        if p_he.0 <= pressure {
            Bracket { low: middle, high }
        } else {
            Bracket {
                low,
                high: middle - 1,
            }
        }
    }

    // The greatest depth that carries the pressure, Pa, from one on that does. 17 halvings are always enough, since the foot is under 2^17 mm.
    #[tactic(auto, using(crate::proofs::Halving::closed))]
    fn deepest_from(&self, low: u64, pressure: u32) -> u64
        requires { (low ≤ self.now.basis.now.silo.foot) × (p_he_of computed self.now.basis.now.silo low ≤ pressure) }
        ensures { Deepest (p_he_of computed self.now.basis.now.silo) self.now.basis.now.silo.foot pressure result × (low ≤ result) }
    {
        let mut bracket = Bracket {
            low,
            high: self.basis.silo.foot,
        };
        for _ in 0..17u32 {
            if bracket.low == bracket.high {
                break;
            }
            bracket = self.halved(pressure, bracket);
        }
        bracket.low
    }

    // The depth of each pressure, Pa, of a list that never falls, in one pass down the wall: each search starts where the last one ended.
    #[tactic(auto, using(crate::proofs::PressureLaws::none_at_brim, crate::proofs::Pass::next, crate::proofs::Pass::all_passed))]
    pub fn pass(&self, pressures: &[u32], depths: &mut [u32])
        requires { NeverFalls pressures.now × (length depths.old ≡ length pressures.now) }
        ensures { Depths (p_he_of computed self.now.basis.now.silo) self.now.basis.now.silo.foot pressures.now depths.new }
    {
        let mut low = 0;
        for (i, pressure) in pressures.iter().enumerate() {
            low = self.deepest_from(low, *pressure);
            depths[i] = low as u32;
        }
    }
}
