// The refusals of a data sheet, and the silo that it describes. Document 01, "Who can be refused"; document 02, C-13
// and C-17.
#![tactic(auto)]

ghost use Rattle.std.specs.Prelude.{◌≡◌, ◌≤◌, IfOk};
ghost use Rattle.records.specs.Refusal.{answer};
ghost use Rattle.records.specs.Rules.{first_unmet};
ghost use Rattle.description.specs.Silo.{V_of};
ghost use Rattle.sheet.specs.Refusal.{sheet_rules_at};
ghost use Rattle.sheet.specs.program.Examined.{Examined};
ghost use Rattle.sheet.specs.declared.accepted.AcceptedSheet.{AcceptedSheet};

use accepted::AcceptedSheet;
use description::{Described, describe};
use records::layout::find_records;
use records::refusal::Refusal;

pub mod accepted; // a sheet whose loads are worked out
pub mod rules; // rules 6 to 12, 17 and 20 on the values

// What a call is asked for: a length or a count, or loads.
#[derive(Clone, Copy)]
pub enum Asked {
    Length,
    Loads,
}

// Any sheet with a depth given beside it, mm, which rule 11 judges with the listed ones: its first refusal by what is asked for, or what it describes.
// A call that is given no depth gives 0, which no wall is short of.
pub fn examine(asked: Asked, sheet: &[u8], depth: u64) -> Result<Described, Refusal>
    ensures { Examined asked sheet.now depth result }
{
    let records = find_records(sheet)?;
    let described = describe(&records);
    rules::values_refusal(asked, sheet, &described, depth)?;
    Ok(described)
}

// A sheet for whose loads a call asks, with a depth given beside it, mm, or 0: its first refusal, or the sheet accepted, whose wall is not short of the depth.
pub fn accept<'a>(sheet: &'a [u8], depth: u64) -> Result<AcceptedSheet<'a>, Refusal>
    ensures refusal { answer result ≡ first_unmet (sheet_rules_at sheet.now depth) }
    ensures accepted { IfOk result (λ (a : AcceptedSheet). (a.sheet ≡ sheet.entry) × (depth ≤ V_of sheet.now)) }
{
    let described = examine(Asked::Loads, sheet, depth)?;
    Ok(AcceptedSheet { sheet, described })
}
