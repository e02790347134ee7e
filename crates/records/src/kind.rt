// What a record holds: its kind, by number, the record where it is due, and the payload lengths that it allows.
ghost use Rattle.std.specs.Prelude.{◌≡◌};
ghost use Rattle.records.specs.Format.{kind_due, allowed};
ghost use Rattle.records.specs.Kind.{code, Decodes};

use crate::refusal::Refusal;

#[derive(Clone, Copy, Debug, PartialEq, Eq)]
pub enum Kind {
    Circle = 1,
    Rectangle = 2,
    Product = 3,
    Eccentricities = 4,
    Bottom = 5,
    Strakes = 6,
    Depths = 7,
    Headroom = 8,
}

// A number that is no kind is due nowhere.
impl TryFrom<u64> for Kind {
    type Error = Refusal;

    ghost try_from_gives = { Decodes };

    fn try_from(code: u64) -> Result<Self, Refusal> {
        match code {
            1 => Ok(Kind::Circle),
            2 => Ok(Kind::Rectangle),
            3 => Ok(Kind::Product),
            4 => Ok(Kind::Eccentricities),
            5 => Ok(Kind::Bottom),
            6 => Ok(Kind::Strakes),
            7 => Ok(Kind::Depths),
            8 => Ok(Kind::Headroom),
            _ => Err(Refusal::KindNotDue),
        }
    }
}

impl Kind {
    // Whether it is the kind due for record k, 0 to 6; the section's is one of two.
    pub fn is_due(self, k: usize) -> bool
        ensures { result ≡ kind_due k (code self) }
    {
        match self {
            Kind::Circle | Kind::Rectangle => k == 0,
            Kind::Product => k == 1,
            Kind::Eccentricities => k == 2,
            Kind::Bottom => k == 3,
            Kind::Strakes => k == 4,
            Kind::Depths => k == 5,
            Kind::Headroom => k == 6,
        }
    }

    // Whether it allows a payload of so many bytes: 1 to 24 strakes of 2, 1 to 200 depths of 4, else one length alone.
    #[tactic(auto, using(crate::proofs::Records::one_length), unfolding(crate::specs::Format::allowed))]
    pub fn allows(self, length: u64) -> bool
        ensures { result ≡ allowed (code self) length }
    {
        match self {
            Kind::Circle | Kind::Headroom => length == 4,
            Kind::Product => length == 10,
            Kind::Rectangle | Kind::Eccentricities | Kind::Bottom => length == 8,
            Kind::Strakes => (2 <= length) & (length <= 48) & (length % 2 == 0),
            Kind::Depths => (4 <= length) & (length <= 800) & (length % 4 == 0),
        }
    }
}
