// The load page of a sheet: text for the dealer's folder. Document 02, C-15.
#![tactic(auto)]

ghost use Rattle.std.specs.Prelude.{◌≡◌, ◌<◌, ◌≤◌};
ghost use Rattle.exponential.specs.program.Table.{table};
ghost use Rattle.janssen.specs.program.Pressure.{computed_by};
ghost use Rattle.records.specs.Refusal.{answer, numbered};
ghost use Rattle.page.specs.Page.{page_size, page_length};
ghost use Rattle.page.specs.Promise.{PagePromise};

use answers::place::Places;
use records::refusal::Refusal;
use sheet::Asked;

mod fill; // the page, line by line

// How many bytes the page of so many depths and strakes has.
fn page_due(places: Places, strakes: usize) -> usize
    requires { strakes ≤ 24 }
    ensures { (result ≡ page_size places.depths strakes) × (result < 100000) }
{
    73 * (1 + places.depths) + 10 * (10 + strakes)
}

// The page's length call: how many bytes the page of a sheet has, or the refusal.
#[tactic(auto, using(sheet::proofs::Chains::length_examined, answers::proofs::LengthLaws::refused_by_name, answers::proofs::LengthLaws::due_answered, crate::proofs::Call::described_size))]
pub fn page_length(sheet: &[u8]) -> Result<u32, Refusal>
    ensures { numbered result ≡ page_length sheet.now }
{
    let described = sheet::examine(Asked::Length, sheet, 0)?;
    let depths = described.depths.count;
    Ok(page_due(Places { depths }, described.wall.count) as u32)
}

// The page call: the page at the buffer's start, or the first refusal with the buffer as it was.
pub fn page(sheet: &[u8], out: &mut [u8]) -> Result<(), Refusal>
    ensures { PagePromise computed_by table sheet.now out.old (answer result) out.new }
{
    let accepted = sheet::accept(sheet, 0)?;
    let described = &accepted.described;
    let depths = described.depths.count;
    if out.len() < page_due(Places { depths }, described.wall.count) {
        return Err(Refusal::PageRoom);
    }
    fill::fill(&accepted, out);
    Ok(())
}
