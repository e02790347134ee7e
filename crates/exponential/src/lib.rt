// 2^40·e^(-q) from below, from a table of its values at every 64th and a fraction of two short polynomials between them.
#![tactic(auto)]

ghost use Rattle.std.specs.Prelude.{◌≡◌, ◌*◌, ◌^◌, ◌<◌, ◌≤◌};
ghost use Rattle.exponential.specs.program.Table.{table};
ghost use Rattle.exponential.specs.program.Lower.{denominator, lower};

pub mod table;

// 2^33·(4 + 3y + y² + y³/6) at y = j/2^33, rounded up.
// The quotients add divisor - 1: with `fraction::quotient_up`, which takes the rest too, `lower_bound` was measured at 35.2 ns against 34.5.
#[tactic(auto, unfolding(crate::specs::program::Lower::denominator, fraction::specs::Fraction::up))]
fn step_denominator(j: u64) -> u64
    requires { j < 2 ^ 27 }
    ensures { (result ≡ denominator j) × (2 ^ 35 ≤ result) × (result < 2 ^ 36) }
{
    let square = (j * j + 8589934591) / 8589934592;
    let cube = (j * square + 51539607551) / 51539607552;
    34359738368 + 3 * j + square + cube
}

// 2^40·e^(-q/2^33) from below, for q/2^33 below 53. It never rises with q.
#[tactic(auto, using(crate::proofs::TableLaws::entry_le, crate::proofs::LowerLaws::lower_le), unfolding(crate::specs::program::Lower::lower_by, crate::specs::program::Lower::between, crate::specs::program::Lower::entry_in))]
pub fn lower_bound(q: u64) -> u64
    requires { q < 53 * 2 ^ 33 }
    ensures { (result ≡ lower q) × (result ≤ 2 ^ 40) }
{
    let k = (q / 134217728) as usize;
    let j = q % 134217728;
    let entries = table::entries();
    let here = fraction::product_quotient(entries[k], 34359738368 - j, step_denominator(j));
    here.max(entries[k + 1])
}
