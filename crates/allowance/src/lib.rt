// What it means for a load made from filling to be at or above its unrounded value, and less than its allowance above.
#![tactic(auto)]
