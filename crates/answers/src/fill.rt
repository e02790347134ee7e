// The answer list, part by part: depths, bottom, strakes.
ghost use Rattle.std.specs.Prelude.{◌≡◌, ◌+◌, ◌*◌, ◌<◌, ◌≤◌, length};
ghost use Rattle.std.proofs.lemmas.List.Edits.{sets};
ghost use Rattle.janssen.specs.program.Pressure.{computed};
ghost use Rattle.description.specs.Silo.{depth_count, sum};
ghost use Rattle.answers.specs.Length.{length_due};
ghost use Rattle.answers.specs.Answers.{silo_of};
ghost use Rattle.loads.specs.Load.{bottom_numbers};
ghost use Rattle.loads.specs.program.Basis.{Reached};
ghost use Rattle.answers.specs.program.Place.{Placed};
ghost use Rattle.answers.specs.program.Fill.{strake_numbers, depths_part, answers};

use crate::place::Places;
use description::WallState;
use description::values::product_read;
use loads::{Basis, Silo};
use sheet::accepted::AcceptedSheet;

// The eight numbers of the depth i, each in its place.
#[tactic(auto, using(crate::proofs::Placing::placed_start))]
fn store_depth(list: &mut [u32], places: Places, i: usize, numbers: [u32; 8])
    requires { (i < places.depths) × (8 * places.depths ≤ length list.old) }
    ensures { Placed places.depths i 8 numbers list.old list.new }
{
    for (r, number) in numbers.iter().enumerate() {
        list[places.load(r, i)] = *number;
    }
}

// What is worked out once for the silo of an accepted sheet; e is the larger of e_i and e_o.
#[tactic(auto, using(crate::proofs::Whole::silo_described, crate::proofs::Whole::fits_described))]
pub fn basis(accepted: &AcceptedSheet) -> Basis
    ensures { result.silo ≡ silo_of accepted.now.sheet.now }
{
    let described = &accepted.described;
    let eccentricities = described.eccentricities;
    Basis::of(Silo {
        section: described.section,
        product: product_read(described.product),
        eccentricity: discharge::eccentricity(eccentricities.inlet, eccentricities.outlet),
        height: described.bottom.height,
        run: described.bottom.run,
        foot: described.wall.foot,
        headroom: described.headroom,
    })
}

// Eight numbers for each depth, in columns.
#[tactic(auto, using(crate::proofs::Placing::depths_start, crate::proofs::Placing::depths_done))]
fn fill_depths(accepted: &AcceptedSheet, basis: &Basis, columns: &mut [u32])
    requires { (basis.now.silo ≡ silo_of accepted.now.sheet.now) × (length columns.old ≡ 8 * depth_count accepted.now.sheet.now) }
    ensures { columns.new ≡ depths_part accepted.now.sheet.now }
{
    let depths = accepted.described.depths;
    let places = Places {
        depths: depths.count,
    };
    for i in 0..depths.count {
        let numbers = basis.depth_numbers(depths.read(accepted.sheet, i));
        store_depth(columns, places, i, numbers);
    }
}

// One number for each strake of these heights, at its lower edge.
#[tactic(auto, using(crate::proofs::Edges::next_state, crate::proofs::Edges::next_inside, description::proofs::Walls::passed_after), unfolding(description::specs::program::Wall::wall_lowered))]
fn fill_strakes(basis: &Basis, heights: &[u64], strakes: &mut [u32])
    requires { (length heights.now ≤ 24) × Reached basis.now.silo (sum heights.now) × (length strakes.old ≡ length heights.now) × (sum heights.now < 4294967296) }
    ensures { strakes.new ≡ strake_numbers basis.now.silo heights.now }
{
    let mut state = WallState::top();
    for (k, height) in heights.iter().enumerate() {
        state = state.lowered(*height);
        let p_he = basis.horizontal_discharge(state.edge);
        strakes[k] = p_he.0;
    }
}

// The whole list, of the length due: the depths' columns, ten numbers of the bottom, one for each strake.
#[tactic(auto, using(crate::proofs::Whole::room))]
pub fn fill(accepted: &AcceptedSheet, list: &mut [u32])
    requires { length list.old ≡ length_due accepted.now.sheet.now }
    ensures { list.new ≡ answers accepted.now.sheet.now }
{
    let basis = basis(accepted);
    let described = &accepted.described;
    let depths = described.depths.count;
    let places = Places { depths };
    let (columns, rest) = list.split_at_mut(places.bottom());
    let (bottom, strakes) = rest.split_at_mut(10);
    fill_depths(accepted, &basis, columns);
    bottom.copy_from_slice(&basis.bottom_numbers());
    fill_strakes(&basis, described.wall.strakes(), strakes);
}
