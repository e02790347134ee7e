// The answer list of a sheet: the call that fills it. Document 01, "Answer list" and "Who can be refused"; document 02, C-13.
#![tactic(auto)]

ghost use Rattle.exponential.specs.program.Table.{table};
ghost use Rattle.janssen.specs.program.Pressure.{computed_by};
ghost use Rattle.records.specs.Refusal.{answer};
ghost use Rattle.answers.specs.Promise.{Promise};

use place::Places;
use records::refusal::Refusal;

pub mod fill; // the answer list, part by part
pub mod length; // the call that tells its length
pub mod place; // where a number stands in the list

// The load call: the list filled, or the first refusal with the list as it was.
#[tactic(auto, using(crate::proofs::LengthLaws::described_due))]
pub fn loads(sheet: &[u8], answers: &mut [u32]) -> Result<(), Refusal>
    ensures { Promise computed_by table sheet.now answers.old (answer result) answers.new }
{
    let accepted = sheet::accept(sheet, 0)?;
    let described = &accepted.described;
    let depths = described.depths.count;
    let places = Places { depths };
    if answers.len() != places.length_due(described.wall.count) {
        return Err(Refusal::ListLength);
    }
    fill::fill(&accepted, answers);
    Ok(())
}
