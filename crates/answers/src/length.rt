// The length call: how many numbers the answer list of a sheet has.
ghost use Rattle.std.specs.Prelude.{◌≡◌};
ghost use Rattle.records.specs.Refusal.{numbered};
ghost use Rattle.answers.specs.Length.{answers_length, length_number};

use crate::place::Places;
use records::refusal::Refusal;
use sheet::Asked;

// The length call: the length that the answer list of a sheet must have, or the refusal.
#[tactic(auto, using(sheet::proofs::Chains::length_examined, crate::proofs::LengthLaws::described_due, crate::proofs::LengthLaws::refused_by_name, crate::proofs::LengthLaws::due_answered))]
pub fn answers_length(sheet: &[u8]) -> Result<u32, Refusal>
    ensures { numbered result ≡ answers_length sheet.now }
{
    let described = sheet::examine(Asked::Length, sheet, 0)?;
    let depths = described.depths.count;
    let places = Places { depths };
    Ok(places.length_due(described.wall.count) as u32)
}

// The number of an answer that tells a length, whatever number stands for a refusal in it: 2^32 + the length, or that number.
#[tactic(auto, unfolding(crate::specs::Length::length_number))]
pub fn number(told: Result<u32, u32>) -> u64
    ensures { result ≡ length_number told }
{
    match told {
        Ok(length) => 4294967296 + u64::from(length),
        Err(refused) => u64::from(refused),
    }
}

// The same of an answer with the refusal's name.
pub fn length_number(told: Result<u32, Refusal>) -> u64
    ensures { result ≡ length_number (numbered told) }
{
    number(told.map_err(u32::from))
}
