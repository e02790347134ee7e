// The refusals, and the number by which a host knows each.
ghost use Rattle.std.specs.Prelude.{◌≡◌};
ghost use Rattle.records.specs.Refusal.{number, answer};

// The rule that is not met. 13 is retired.
#[derive(Clone, Copy, Debug, PartialEq, Eq)]
pub enum Refusal {
    SheetTooLong = 1,
    RecordCutShort = 2,
    KindNotDue = 3,
    PayloadLength = 4,
    BytesLeftOver = 5,
    Sides = 6,
    Product = 7,
    Eccentricity = 8,
    Bottom = 9,
    Strake = 10,
    Depth = 11,
    TooTall = 12,
    ListLength = 14,
    NoSuchMaterial = 15,
    RecordLength = 16,
    Headroom = 17,
    PageRoom = 18,
    NotCircular = 19,
    Proportion = 20,
    Pressures = 21,
    DepthsLength = 22,
}

impl From<Refusal> for u32 {
    ghost from_gives = { λ r n. n ≡ number r };

    fn from(r: Refusal) -> u32 {
        r as u32
    }
}

// What a call answers that fills what it is lent: 0, or the refusal's number.
pub fn answer(reply: Result<(), Refusal>) -> u32
    ensures { result ≡ answer reply }
{
    match reply {
        Ok(()) => 0,
        Err(refusal) => refusal.into(),
    }
}
