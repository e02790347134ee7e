// Where a number stands in the answer list. Document 01, "Answer list"; document 02, C-18.
ghost use Rattle.std.specs.Prelude.{◌≡◌, ◌*◌, ◌≤◌, ◌<◌};
ghost use Rattle.answers.specs.Place.{load_place, bottom_place, strake_place};

// The places in the list of a sheet with so many depths, 0 to 1,024.
#[derive(Clone, Copy)]
pub struct Places {
    pub depths: usize,
    pub ghost few: { depths ≤ 1024 },
}

impl Places {
    // Number r of the eight of the depth i: in the column of its load.
    #[tactic(auto, using(crate::proofs::PlaceLaws::load_under), unfolding(crate::specs::Place::load_place))]
    pub fn load(self, r: usize, i: usize) -> usize
        requires { (r < 8) × (i < self.depths) }
        ensures { (result ≡ load_place self.depths r i) × (result < 8 * self.depths) }
    {
        r * self.depths + i
    }

    // The first number of the bottom.
    pub fn bottom(self) -> usize
        ensures { result ≡ bottom_place self.depths 0 }
    {
        8 * self.depths
    }

    // The strake k, 0 to 24, counted from 0.
    pub fn strake(self, k: usize) -> usize
        requires { k ≤ 24 }
        ensures { (result ≡ strake_place self.depths k) × (result < 10000) }
    {
        self.bottom() + 10 + k
    }

    // How many numbers the list has, with so many strakes: it ends where one strake more would stand.
    pub fn length_due(self, strakes: usize) -> usize
        requires { strakes ≤ 24 }
        ensures { (result ≡ strake_place self.depths strakes) × (result < 10000) }
    {
        self.strake(strakes)
    }
}
