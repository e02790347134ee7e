// The values that the records hold, read in place, each from the record that begins at `at`; `end` is where it ends. Any sheet can be read, a refused one too.
ghost use Rattle.std.specs.Prelude.{◌≡◌, ◌+◌, ◌-◌, ◌<◌, ◌≤◌, length};
ghost use Rattle.janssen.specs.Section.{side_a, side_b};
ghost use Rattle.records.specs.Format.{u32, record_place};
ghost use Rattle.description.specs.Silo.{section_of, product_sent, factor_read, eccentricities_of, bottom_of, strake_count, headroom_of};
ghost use Rattle.description.specs.program.Described.{wall_of, depths_in, product_read};

use crate::{Bottom, Depths, Eccentricities, Wall};
use janssen::{Product, Section};
use records::bytes::{four_bytes, two_bytes};
use records::kind::Kind;
use records::places::Records;

// The bytes in the payload of the record from `at` to `end`.
pub fn payload_bytes(at: usize, end: usize) -> usize
    requires { at + 4 ≤ end }
    ensures { result ≡ end - at - 4 }
{
    end - at - 4
}

#[tactic(auto, unfolding(crate::specs::Silo::section_of, records::specs::Format::kind, records::specs::Format::payload, janssen::specs::Section::side_a, janssen::specs::Section::side_b))]
pub fn read_section(sheet: &[u8], at: usize) -> Section
    requires { (at ≡ record_place sheet.now 0) × (at ≤ 1024) }
    ensures { (result ≡ section_of sheet.now) × (side_a result < 4294967296) × (side_b result < 4294967296) }
{
    let start = at + 4;
    let a = four_bytes(sheet, start);
    if two_bytes(sheet, at + 2) == Kind::Circle as u64 {
        Section::Circle(a)
    } else {
        Section::Rectangle(a, four_bytes(sheet, start + 4))
    }
}

// γ, Ks, μ and C0 as sent.
#[tactic(auto, unfolding(crate::specs::Silo::product_sent, records::specs::Format::payload))]
pub fn read_product(sheet: &[u8], at: usize) -> Product
    requires { (at ≡ record_place sheet.now 1) × (at ≤ 1024) }
    ensures { result ≡ product_sent sheet.now }
{
    let start = at + 4;
    Product {
        weight: four_bytes(sheet, start),
        ratio: two_bytes(sheet, start + 4),
        friction: two_bytes(sheet, start + 6),
        factor: two_bytes(sheet, start + 8),
    }
}

// A factor C0 of 0 is read as 155 hundredths: equation 7.4 at an internal friction angle of 40°.
#[tactic(auto, unfolding(crate::specs::Silo::factor_read))]
fn factor_read(sent: u64) -> u64
    ensures { result ≡ factor_read sent }
{
    if sent == 0 { 155 } else { sent }
}

// The product as its loads see it.
pub fn product_read(sent: Product) -> Product
    ensures { result ≡ product_read sent }
{
    Product {
        factor: factor_read(sent.factor),
        ..sent
    }
}

// Two numbers of four bytes.
fn read_pair(sheet: &[u8], at: usize) -> (u64, u64)
    requires { at ≤ 1024 }
    ensures first { (result.0 ≡ u32 sheet.now (at + 4)) × (result.0 < 4294967296) }
    ensures second { (result.1 ≡ u32 sheet.now (at + 8)) × (result.1 < 4294967296) }
{
    let start = at + 4;
    (four_bytes(sheet, start), four_bytes(sheet, start + 4))
}

#[tactic(auto, unfolding(crate::specs::Silo::eccentricities_of, records::specs::Format::payload))]
pub fn read_eccentricities(sheet: &[u8], at: usize) -> Eccentricities
    requires { (at ≡ record_place sheet.now 2) × (at ≤ 1024) }
    ensures { (result ≡ eccentricities_of sheet.now) × (result.inlet < 4294967296) × (result.outlet < 4294967296) }
{
    let (inlet, outlet) = read_pair(sheet, at);
    Eccentricities { inlet, outlet }
}

#[tactic(auto, unfolding(crate::specs::Silo::bottom_of, records::specs::Format::payload))]
pub fn read_bottom(sheet: &[u8], at: usize) -> Bottom
    requires { (at ≡ record_place sheet.now 3) × (at ≤ 1024) }
    ensures { (result ≡ bottom_of sheet.now) × (result.height < 4294967296) × (result.run < 4294967296) }
{
    let (height, run) = read_pair(sheet, at);
    Bottom { height, run }
}

// The strake heights, in 24 places, and their sum.
pub fn read_wall(sheet: &[u8], at: usize, end: usize) -> Wall
    requires { (at ≡ record_place sheet.now 4) × (end ≡ record_place sheet.now 5) × (end ≤ 1024) × (strake_count sheet.now ≤ 24) }
    ensures wall { result ≡ wall_of sheet.now }
    ensures small { (length result.heights ≡ 24) × (result.count ≤ 24) × (result.foot < 4294967296) }
{
    let start = at + 4;
    let count = payload_bytes(at, end) / 2;
    let mut heights = [0u64; 24];
    let mut foot: u64 = 0;
    for i in 0..count {
        let height = two_bytes(sheet, start + 2 * i);
        heights[i] = height;
        foot += height;
    }
    Wall {
        heights,
        count,
        foot,
    }
}

#[tactic(auto, unfolding(crate::specs::Silo::depth_count))]
pub(crate) fn read_depths(records: &Records) -> Depths
    ensures { (result ≡ depths_in records.now.sheet.now) × (result.start ≤ 1024) × (result.count ≤ 1024) }
{
    Depths {
        start: records.payload(5),
        count: records.payload_length(5) / 4,
    }
}

// The headroom: a sheet of six records ends at `at`, and what lies past its end reads as 0.
#[tactic(auto, using(crate::proofs::Headroom::headroom_read), unfolding(records::specs::Format::payload))]
pub fn read_headroom(sheet: &[u8], at: usize) -> u64
    requires { (at ≡ record_place sheet.now 6) × (at ≤ 1024) }
    ensures { (result ≡ headroom_of sheet.now) × (result < 4294967296) }
{
    four_bytes(sheet, at + 4)
}
