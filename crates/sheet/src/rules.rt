// Rules 6 to 12, 17 and 20, each a test; dc is d_c, mm.
ghost use Rattle.std.specs.Prelude.{ℕ, ◌||◌, ◌≡◌, ◌*◌, ◌<◌, ◌≤◌, leb, ltb};
ghost use Rattle.std.specs.List.{list_all};
ghost use Rattle.records.specs.Refusal.{answer};
ghost use Rattle.records.specs.Rules.{within, first_unmet};
ghost use Rattle.description.specs.Silo.{depths_of};
ghost use Rattle.janssen.specs.Section.{side_a, side_b};
ghost use Rattle.description.specs.program.Described.{depths_in, Sized};
ghost use Rattle.sheet.specs.Refusal.{sides_met, proportion_met, product_met, eccentricities_met, flat, hopper, strakes_met, depths_met};
ghost use Rattle.sheet.specs.program.Examined.{tells, described_rules};

use crate::Asked;
use description::{Bottom, Depths, Described, Eccentricities};
use janssen::{Product, Section};
use records::refusal::Refusal;

// low ≤ x ≤ high. A function, since with `contains` in each place the check does not prove rules 7 and 11.
fn between(low: u64, high: u64, x: u64) -> bool
    ensures { result ≡ within low high x }
{
    (low..=high).contains(&x)
}

// Rule 6.
#[tactic(auto, unfolding(crate::specs::Refusal::sides_met))]
fn sides_met(section: Section) -> bool
    ensures { result ≡ sides_met section }
{
    between(500, 50000, section.side_a()) & between(500, 50000, section.side_b())
}

// Rule 20: the long side of a rectangle is at most three times the short one.
#[tactic(auto, using(crate::proofs::Sides::both_ways), unfolding(crate::specs::Refusal::proportion_met, janssen::specs::Section::side_a, janssen::specs::Section::side_b))]
fn proportion_met(section: Section) -> bool
    requires { (side_a section < 4294967296) × (side_b section < 4294967296) }
    ensures { result ≡ proportion_met section }
{
    match section {
        Section::Circle(_) => true,
        Section::Rectangle(a, b) => (a <= 3 * b) & (b <= 3 * a),
    }
}

// Rule 20 where loads are asked for; a length is told of any section. A closure for each of the two would be no plainer.
fn proportion_asked(asked: Asked, section: Section) -> bool
    requires { (side_a section < 4294967296) × (side_b section < 4294967296) }
    ensures { result ≡ (tells asked || proportion_met section) }
{
    match asked {
        Asked::Length => true,
        Asked::Loads => proportion_met(section),
    }
}

// Rule 7.
fn product_met(product: Product) -> bool
    ensures { result ≡ product_met product }
{
    between(1000, 30000, product.weight)
        & between(20, 100, product.ratio)
        & between(10, 100, product.friction)
        & ((product.factor == 0) | between(100, 200, product.factor))
}

// Rule 8.
fn eccentricities_met(dc: u64, e: Eccentricities) -> bool
    requires { (e.inlet < 4294967296) × (e.outlet < 4294967296) }
    ensures { result ≡ eccentricities_met dc e }
{
    (4 * e.inlet <= dc) & (4 * e.outlet <= dc)
}

// Rule 9: flat, or a hopper.
fn is_flat(bottom: Bottom) -> bool
    ensures { result ≡ flat bottom }
{
    (bottom.height == 0) & (bottom.run == 0)
}

fn is_hopper(dc: u64, bottom: Bottom) -> bool
    requires { (bottom.height < 4294967296) × (bottom.run < 4294967296) }
    ensures { result ≡ hopper dc bottom }
{
    (1 <= bottom.run)
        & (2 * bottom.run < dc)
        & (bottom.height <= 25000)
        & (363971 * bottom.run <= 1000000 * bottom.height)
}

// Rule 10.
fn strakes_met(strakes: &[u64]) -> bool
    ensures { result ≡ list_all (λ (x : ℕ). within 200 3000 x) strakes.now }
{
    strakes.iter().all(|height| between(200, 3000, *height))
}

// Rule 11: each depth is from low to the wall's foot, low being one more than the depth before.
fn depths_met(sheet: &[u8], depths: Depths, foot: u64) -> bool
    requires { (depths ≡ depths_in sheet.now) × (depths.start ≤ 1024) × (depths.count ≤ 1024) }
    ensures { result ≡ depths_met foot 0 (depths_of sheet.now) }
{
    let mut low: u64 = 0;
    for i in 0..depths.count {
        let z = depths.read(sheet, i);
        if !between(low, foot, z) {
            return false;
        }
        low = z + 1;
    }
    true
}

// Rule 17: the grain's surface lies above the wall's foot.
fn headroom_met(headroom: u64, foot: u64) -> bool
    ensures { result ≡ ltb headroom foot }
{
    headroom < foot
}

// Rule 12.
fn height_met(dc: u64, h: u64) -> bool
    requires { dc < 4294967296 }
    ensures { result ≡ ltb h (10 * dc) }
{
    h < 10 * dc
}

// Rule 11 of a depth given beside the sheet, mm.
fn depth_met(depth: u64, foot: u64) -> bool
    ensures { result ≡ leb depth foot }
{
    depth <= foot
}

// The first refusal of rules 6, 20, 7 to 11, 17 and 12 of the silo described and a depth given. No rule behind it is worked out.
#[tactic(auto, using(crate::proofs::Heights::all_met), unfolding(crate::specs::program::Examined::described_rules, records::specs::Rules::first_unmet))]
pub fn values_refusal(
    asked: Asked,
    sheet: &[u8],
    described: &Described,
    depth: u64,
) -> Result<(), Refusal>
    requires { Sized described.now × (described.now.depths ≡ depths_in sheet.now) }
    ensures { answer result ≡ first_unmet (described_rules asked described.now (depths_of sheet.now) depth) }
{
    let section = described.section;
    if !sides_met(section) {
        return Err(Refusal::Sides);
    }
    if !proportion_asked(asked, section) {
        return Err(Refusal::Proportion);
    }
    let product = described.product;
    if !product_met(product) {
        return Err(Refusal::Product);
    }
    let dc = section.shorter_side();
    let eccentricities = described.eccentricities;
    if !eccentricities_met(dc, eccentricities) {
        return Err(Refusal::Eccentricity);
    }
    let bottom = described.bottom;
    if !(is_flat(bottom) | is_hopper(dc, bottom)) {
        return Err(Refusal::Bottom);
    }
    if !strakes_met(described.wall.strakes()) {
        return Err(Refusal::Strake);
    }
    let foot = described.wall.foot;
    let depths = described.depths;
    if !(depth_met(depth, foot) & depths_met(sheet, depths, foot)) {
        return Err(Refusal::Depth);
    }
    let headroom = described.headroom;
    if !headroom_met(headroom, foot) {
        return Err(Refusal::Headroom);
    }
    if !height_met(dc, foot - headroom + bottom.height) {
        return Err(Refusal::TooTall);
    }
    Ok(())
}
