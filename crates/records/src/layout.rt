// The records of a sheet: rules 1 to 5, and where each record begins.
ghost use Rattle.std.specs.Prelude.{◌≡◌, ◌≤◌, ◌<◌, IfOk};
ghost use Rattle.records.specs.Refusal.{answer};
ghost use Rattle.records.specs.Rules.{first_unmet};
ghost use Rattle.records.specs.Format.{record_rules, layout_rules};
ghost use Rattle.records.specs.declared.places.Records.{Records};
ghost use Rattle.records.specs.declared.reader.Reader.{Reader};
ghost use Rattle.records.specs.program.Reader.{Behind};

use crate::places::Records;
use crate::reader::{Reader, behind, current, start};
use crate::refusal::Refusal;
use crate::rules::record_refusal;

// The reader behind record k, or the record's first refusal by rules 2, 3 and 4.
fn pass<'a>(reader: Reader<'a>, k: usize) -> Result<Reader<'a>, Refusal>
    requires { (reader.at ≤ 1024) × (k < 7) }
    ensures refusal { answer result ≡ first_unmet (record_rules reader.entry.sheet.now reader.entry.at k) }
    ensures passed { IfOk result (λ (r : Reader). Behind reader.entry r) }
{
    let found = current(reader);
    record_refusal(reader.sheet, found, k)?;
    Ok(behind(reader, found))
}

// The first refusal of rules 1 to 5, or the records: a reader finds six in order, and a seventh where bytes follow the sixth. Nothing is left over.
#[tactic(auto, using(crate::proofs::Walks::early_refused, crate::proofs::Walks::seventh_refused), unfolding(crate::specs::Format::layout_rules, crate::specs::Rules::first_unmet))]
pub fn find_records<'a>(sheet: &'a [u8]) -> Result<Records<'a>, Refusal>
    ensures refusal { answer result ≡ first_unmet (layout_rules sheet.now) }
    ensures found { IfOk result (λ (r : Records). r.sheet ≡ sheet.entry) }
{
    if 1024 < sheet.len() {
        return Err(Refusal::SheetTooLong);
    }
    let mut places = [0usize; 7];
    let mut reader = start(sheet);
    for k in 0..6 {
        reader = pass(reader, k)?;
        places[k + 1] = reader.at;
    }
    if reader.at != sheet.len() {
        let last = pass(reader, 6)?;
        if last.at != sheet.len() {
            return Err(Refusal::BytesLeftOver);
        }
    }
    Ok(Records { sheet, places })
}
