// The catalogue of products: table 7.1 of source 001.
#![tactic(auto)]

ghost use Rattle.std.specs.Prelude.{◌≡◌, ◌<◌, ◌≤◌, length, MatchResult};
ghost use Rattle.records.specs.Refusal.{answer};
ghost use Rattle.records.specs.declared.refusal.Refusal.TheVariants.{NoSuchMaterial};
ghost use Rattle.records.specs.Rules.{first_unmet};
ghost use Rattle.catalogue.specs.program.Wall.{wall_number};
ghost use Rattle.catalogue.specs.Table.{row_of, product_for, record_of, catalogue_rules, catalogue_after};

use janssen::Product;
use records::refusal::Refusal;

// A row of the table.
#[derive(Clone, Copy)]
pub struct Material {
    // γ, N/m³
    pub weight: u64,
    // mean ratio Ks, hundredths
    pub ratio: u64,
    // mean friction μ on steel and on concrete, hundredths
    pub steel: u64,
    pub concrete: u64,
    // factor C0, hundredths
    pub factor: u64,
}

// Barley, cement, clinker, dry sand, flour, fly ash, maize, sugar, wheat, coal.
const MATERIALS: [Material; 10] = [
    Material {
        weight: 8500,
        ratio: 55,
        steel: 35,
        concrete: 45,
        factor: 135,
    },
    Material {
        weight: 16000,
        ratio: 50,
        steel: 40,
        concrete: 50,
        factor: 140,
    },
    Material {
        weight: 18000,
        ratio: 45,
        steel: 45,
        concrete: 55,
        factor: 140,
    },
    Material {
        weight: 16000,
        ratio: 45,
        steel: 40,
        concrete: 50,
        factor: 140,
    },
    Material {
        weight: 7000,
        ratio: 40,
        steel: 30,
        concrete: 40,
        factor: 145,
    },
    Material {
        weight: 14000,
        ratio: 45,
        steel: 45,
        concrete: 55,
        factor: 145,
    },
    Material {
        weight: 8500,
        ratio: 50,
        steel: 30,
        concrete: 40,
        factor: 140,
    },
    Material {
        weight: 9500,
        ratio: 50,
        steel: 45,
        concrete: 55,
        factor: 140,
    },
    Material {
        weight: 9000,
        ratio: 55,
        steel: 30,
        concrete: 40,
        factor: 130,
    },
    Material {
        weight: 10000,
        ratio: 50,
        steel: 45,
        concrete: 55,
        factor: 145,
    },
];

// The row of the table, counted from 0.
#[tactic(auto, unfolding(crate::specs::Table::row_of, crate::specs::Table::materials))]
fn row_of(row: u32) -> Result<Material, Refusal>
    ensures { MatchResult result (λ m. (row ≤ 9) × (m ≡ row_of row)) (λ refusal. (9 < row) × (refusal ≡ NoSuchMaterial)) }
{
    MATERIALS
        .get(row as usize)
        .copied()
        .ok_or(Refusal::NoSuchMaterial)
}

// What the silo's wall is made of.
#[derive(Clone, Copy, Debug, PartialEq, Eq)]
enum Wall {
    Steel,
    Concrete,
}

// Wall 0 is steel, wall 1 concrete.
impl TryFrom<u32> for Wall {
    type Error = Refusal;

    ghost try_from_gives = { λ n r. MatchResult r (λ wall. n ≡ wall_number wall) (λ refusal. (1 < n) × (refusal ≡ NoSuchMaterial)) };

    fn try_from(n: u32) -> Result<Wall, Refusal> {
        match n {
            0 => Ok(Wall::Steel),
            1 => Ok(Wall::Concrete),
            _ => Err(Refusal::NoSuchMaterial),
        }
    }
}

// The product of a row on a wall.
#[tactic(auto, unfolding(crate::specs::Table::product_for))]
fn product_on(m: Material, wall: Wall) -> Product
    ensures { result ≡ product_for m (wall_number wall) }
{
    Product {
        weight: m.weight,
        ratio: m.ratio,
        friction: match wall {
            Wall::Steel => m.steel,
            Wall::Concrete => m.concrete,
        },
        factor: m.factor,
    }
}

// The product record: payload length 10, kind 3, γ in four bytes, Ks, μ and C0 in two each, little-endian.
#[tactic(auto, unfolding(crate::specs::Table::record_of))]
fn record_of(p: Product) -> [u8; 14]
    ensures { result ≡ record_of p }
{
    let weight = p.weight.to_le_bytes();
    let ratio = p.ratio.to_le_bytes();
    let friction = p.friction.to_le_bytes();
    let factor = p.factor.to_le_bytes();
    [
        10,
        0,
        3,
        0,
        weight[0],
        weight[1],
        weight[2],
        weight[3],
        ratio[0],
        ratio[1],
        friction[0],
        friction[1],
        factor[0],
        factor[1],
    ]
}

// The product record of a row for a wall, written; or the refusal, no such row or wall before another length, with the buffer as it was. Row and wall are the
// numbers of the C interface.
#[tactic(auto, unfolding(crate::specs::Table::catalogue_after, crate::specs::Table::catalogue_rules, records::specs::Rules::first_unmet))]
pub fn catalogue(row: u32, wall: u32, buffer: &mut [u8]) -> Result<(), Refusal>
    ensures answer { answer result ≡ first_unmet (catalogue_rules row wall (length buffer.old)) }
    ensures buffer { buffer.new ≡ catalogue_after row wall buffer.old }
{
    let material = row_of(row)?;
    let wall = Wall::try_from(wall)?;
    if buffer.len() != 14 {
        return Err(Refusal::RecordLength);
    }
    buffer.copy_from_slice(&record_of(product_on(material, wall)));
    Ok(())
}
