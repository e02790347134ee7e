// Rules 2, 3 and 4 of one record.
ghost use Rattle.std.specs.Prelude.{◌≡◌, ◌<◌};
ghost use Rattle.records.specs.Refusal.{answer};
ghost use Rattle.records.specs.Rules.{first_unmet};
ghost use Rattle.records.specs.Format.{record_rules};
ghost use Rattle.records.specs.program.Reader.{Stands};

use crate::kind::Kind;
use crate::reader::{Record, record_end};
use crate::refusal::Refusal;

// The first refusal of rules 2, 3 and 4 of a record that stands where record k is due.
#[tactic(auto, unfolding(crate::specs::Format::record_rules, crate::specs::Rules::first_unmet))]
pub fn record_refusal(sheet: &[u8], found: Record, k: usize) -> Result<(), Refusal>
    requires { Stands sheet.now found.place found × (found.place < 1000000) × (k < 7) }
    ensures { answer result ≡ first_unmet (record_rules sheet.now found.place k) }
{
    if sheet.len() < found.start {
        return Err(Refusal::RecordCutShort);
    }
    let kind = Kind::try_from(found.kind)?;
    if !kind.is_due(k) {
        return Err(Refusal::KindNotDue);
    }
    if !kind.allows(found.length) {
        return Err(Refusal::PayloadLength);
    }
    if sheet.len() < record_end(found) {
        return Err(Refusal::RecordCutShort);
    }
    Ok(())
}
