// Rule 21: 1 to 32 pressures, Pa, that never fall. Document 02, C-19.
ghost use Rattle.std.specs.Prelude.{◌≡◌};
ghost use Rattle.reach.specs.Reach.{pressures_met};

// Rule 21.
#[tactic(auto, unfolding(crate::specs::Reach::pressures_met))]
pub fn pressures_met(pressures: &[u32]) -> bool
    ensures { result ≡ pressures_met pressures.now }
{
    (1..=32).contains(&pressures.len()) && pressures.is_sorted()
}
