// Down to where a plate carries: the calls for the greatest depth at which p_he is not above a pressure. Document 02, C-19.
#![tactic(auto)]

ghost use Rattle.std.specs.Prelude.{◌≡◌, length};
ghost use Rattle.exponential.specs.program.Table.{table};
ghost use Rattle.janssen.specs.program.Pressure.{computed_by, computed};
ghost use Rattle.records.specs.Refusal.{answer, numbered};
ghost use Rattle.description.specs.Silo.{V_of};
ghost use Rattle.answers.specs.Answers.{silo_of};
ghost use Rattle.answers.specs.Length.{length_number};
ghost use Rattle.reach.specs.Reach.{p_he_of, Depths};
ghost use Rattle.reach.specs.Order.{NeverFalls};
ghost use Rattle.reach.specs.Promise.{DepthPromise, DepthsPromise};

use records::refusal::Refusal;
use search::Search;
use sheet::accepted::AcceptedSheet;

mod pressures; // rule 21
mod search; // the greatest depth, by halving

// A depth for each pressure, mm and Pa, for an accepted sheet.
#[tactic(auto, using(crate::proofs::Call::foot_near))]
fn fill(accepted: &AcceptedSheet, pressures: &[u32], depths: &mut [u32])
    requires { NeverFalls pressures.now × (length depths.old ≡ length pressures.now) }
    ensures { Depths (p_he_of computed (silo_of accepted.now.sheet.now)) (V_of accepted.now.sheet.now) pressures.now depths.new }
{
    let basis = answers::fill::basis(accepted);
    let search = Search { basis: &basis };
    search.pass(pressures, depths);
}

// The call with a list: a depth for each pressure, mm, or the first refusal with the list as it was; pressures in Pa.
#[tactic(auto, using(crate::proofs::NeverFalls::never_falls))]
pub fn depths_for(sheet: &[u8], pressures: &[u32], depths: &mut [u32]) -> Result<(), Refusal>
    ensures { DepthsPromise computed_by table sheet.now pressures.now depths.old (answer result) depths.new }
{
    let accepted = sheet::accept(sheet, 0)?;
    if !pressures::pressures_met(pressures) {
        return Err(Refusal::Pressures);
    }
    if depths.len() != pressures.len() {
        return Err(Refusal::DepthsLength);
    }
    fill(&accepted, pressures, depths);
    Ok(())
}

// The single question, which is the list of this pressure alone: the depth, mm, or the refusal; the pressure in Pa.
pub fn depth_for(sheet: &[u8], pressure: u32) -> Result<u32, Refusal>
    ensures { DepthPromise computed_by table sheet.now pressure (length_number (numbered result)) }
{
    let pressures = [pressure];
    let mut depths: [u32; 1] = [0];
    depths_for(sheet, &pressures, &mut depths)?;
    Ok(depths[0])
}
