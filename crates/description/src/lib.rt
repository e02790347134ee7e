// The silo that a sheet describes: the values of its records. Document 01, "Sheet"; document 02, C-13.
#![tactic(auto)]

ghost use Rattle.std.specs.Prelude.{◌≡◌, ◌+◌, ◌*◌, ◌<◌, ◌≤◌, length, take};
ghost use Rattle.records.specs.Format.{u32};
ghost use Rattle.description.specs.program.Described.{described_of, Sized};
ghost use Rattle.description.specs.program.Wall.{wall_lowered, wall_top};

use janssen::{Product, Section};
use records::bytes::four_bytes;
use records::places::Records;

pub mod values; // the values that the records hold

// e_i and e_o, mm.
#[derive(Clone, Copy)]
pub struct Eccentricities {
    pub inlet: u64,
    pub outlet: u64,
}

// The hopper's height H and run r, mm; both 0 is a flat floor.
#[derive(Clone, Copy)]
pub struct Bottom {
    pub height: u64,
    pub run: u64,
}

// 1 to 24 strakes, top first, with their count; mm. The places past the count are 0. An array with a count is the form that document 01 asks for.
#[derive(Clone, Copy)]
pub struct Wall {
    pub heights: [u64; 24],
    pub count: usize,
    // V, their sum: the wall's foot, mm below the brim
    pub foot: u64,
}

// The wall passed so far, going down: how many strakes, and the lower edge of the last, mm below the brim.
#[derive(Clone, Copy)]
pub struct WallState {
    pub passed: usize,
    pub edge: u64,
}

// The listed depths: where they begin in the sheet, and how many they are.
#[derive(Clone, Copy)]
pub struct Depths {
    pub start: usize,
    pub count: usize,
}

// What a sheet describes, each value read once; the product as sent.
#[derive(Clone, Copy)]
pub struct Described {
    pub section: Section,
    pub product: Product,
    pub eccentricities: Eccentricities,
    pub bottom: Bottom,
    pub wall: Wall,
    pub depths: Depths,
    // g, from the brim down to the grain's surface, mm
    pub headroom: u64,
}

// The silo that a sheet's records describe.
pub fn describe(records: &Records) -> Described
    ensures { (result ≡ described_of records.now.sheet.now) × Sized result }
{
    let sheet = records.sheet;
    Described {
        section: values::read_section(sheet, records.place(0)),
        product: values::read_product(sheet, records.place(1)),
        eccentricities: values::read_eccentricities(sheet, records.place(2)),
        bottom: values::read_bottom(sheet, records.place(3)),
        wall: values::read_wall(sheet, records.place(4), records.place(5)),
        depths: values::read_depths(records),
        headroom: values::read_headroom(sheet, records.place(6)),
    }
}

impl Wall {
    // The strakes, top first, mm.
    pub fn strakes(&self) -> &[u64]
        requires { self.now.count ≤ length self.now.heights }
        ensures { result.now ≡ take self.now.count self.now.heights }
    {
        &self.heights[..self.count]
    }
}

impl Depths {
    // The depth at an index, mm below the brim, read from the sheet.
    pub fn read(self, sheet: &[u8], index: usize) -> u64
        requires { (self.start ≤ 1024) × (self.count ≤ 1024) × (index < self.count) }
        ensures { (result ≡ u32 sheet.now (self.start + 4 * index)) × (result < 4294967296) }
    {
        four_bytes(sheet, self.start + 4 * index)
    }
}

impl WallState {
    // The brim, before the first strake.
    #[tactic(auto, unfolding(crate::specs::program::Wall::wall_top))]
    pub fn top() -> Self
        ensures { result ≡ wall_top }
    {
        Self { passed: 0, edge: 0 }
    }

    // The state after the next strake, of this height, with its lower edge.
    #[tactic(auto, unfolding(crate::specs::program::Wall::wall_lowered))]
    pub fn lowered(self, height: u64) -> Self
        requires { (self.passed < 24) × (self.edge + height < 4294967296) }
        ensures { result ≡ wall_lowered height self }
    {
        Self {
            passed: self.passed + 1,
            edge: self.edge + height,
        }
    }
}
