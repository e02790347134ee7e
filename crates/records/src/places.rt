// The records of a sheet that meets rules 1 to 5, and where each begins.
ghost use Rattle.std.specs.Prelude.{◌≡◌};
ghost use Rattle.records.specs.Rules.{first_unmet};
ghost use Rattle.records.specs.Format.{layout_rules};
ghost use Rattle.records.specs.program.Reader.{Located};

#[derive(Clone, Copy)]
pub struct Records<'a> {
    pub sheet: &'a [u8],
    // where the first six begin, and behind them where the sixth ends
    pub places: [usize; 7],
    pub ghost met: { first_unmet (layout_rules sheet.now) ≡ 0 },
    pub ghost located: { Located sheet.now places },
}

impl<'a> Records<'a> {
    ghost use Rattle.std.specs.Prelude.{◌+◌, ◌≤◌, ◌<◌};
    ghost use Rattle.records.specs.Format.{record_place, payload, payload_length};

    // Where record k begins, 0 to 6; the last of these is where the sixth record ends, also where no seventh follows.
    #[tactic(auto, using(crate::proofs::Fine::place_near))]
    pub fn place(&self, k: usize) -> usize
        requires { k ≤ 6 }
        ensures { (result ≡ record_place self.now.sheet.now k) × (result ≤ 1024) }
    {
        self.places[k]
    }

    // Where the payload of record k begins, or would begin. That k is an index in range stands as a clause: a type for it would be made at each call alone.
    #[tactic(auto, unfolding(crate::specs::Format::payload))]
    pub fn payload(&self, k: usize) -> usize
        requires { k ≤ 6 }
        ensures { (result ≡ payload self.now.sheet.now k) × (result ≤ 1028) }
    {
        self.place(k) + 4
    }

    // The bytes in the payload of record k.
    #[tactic(auto, using(crate::proofs::Records::place_next), unfolding(crate::specs::Format::payload, crate::specs::Format::payload_length))]
    pub fn payload_length(&self, k: usize) -> usize
        requires { k < 6 }
        ensures { (result ≡ payload_length self.now.sheet.now k) × (payload self.now.sheet.now k + result ≤ 1024) }
    {
        self.place(k + 1) - self.payload(k)
    }
}
