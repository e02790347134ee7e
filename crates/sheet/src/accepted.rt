// A sheet whose loads are worked out: no rule refuses it, and what it describes.
ghost use Rattle.std.specs.Prelude.{◌≡◌};
ghost use Rattle.std.specs.Coded.{Coded-set};
ghost use Rattle.description.specs.program.Described.{described_of, Sized};
ghost use Rattle.sheet.specs.Refusal.{refusal_of};

use description::Described;

#[derive(Clone, Copy)]
pub struct AcceptedSheet<'a> {
    pub sheet: &'a [u8],
    pub described: Described,
    pub ghost not_refused: { refusal_of sheet.now ≡ 0 },
    pub ghost silo: { described ≡ described_of sheet.now } by { Coded-set described-code described (described_of sheet.now) },
    pub ghost sized: { Sized described },
}
