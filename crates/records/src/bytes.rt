// Little-endian numbers of a sheet, read in place. What lies past the end reads as 0.
ghost use Rattle.std.specs.Prelude.{◌≡◌, ◌+◌, ◌≤◌, ◌<◌, length, get_or};
ghost use Rattle.records.specs.Format.{u16, u32};

fn byte(sheet: &[u8], at: usize) -> u8
    ensures { result ≡ get_or sheet.now at 0 }
{
    sheet.get(at).copied().unwrap_or(0)
}

// Two bytes inside the sheet, by one test for both: a test of each byte was slower.
#[tactic(auto, unfolding(crate::specs::Format::u16))]
fn two_inside(sheet: &[u8], at: usize) -> u64
    requires { at + 2 ≤ length sheet.now }
    ensures { (result ≡ u16 sheet.now at) × (result < 65536) }
{
    u64::from(u16::from_le_bytes([sheet[at], sheet[at + 1]]))
}

#[tactic(auto, unfolding(crate::specs::Format::u16))]
pub fn two_bytes(sheet: &[u8], at: usize) -> u64
    requires { at < 4294967296 }
    ensures { (result ≡ u16 sheet.now at) × (result < 65536) }
{
    if at + 2 <= sheet.len() {
        return two_inside(sheet, at);
    }
    u64::from(u16::from_le_bytes([byte(sheet, at), byte(sheet, at + 1)]))
}

// Four bytes inside the sheet, by one test for all of them: a test of each byte was slower.
#[tactic(auto, unfolding(crate::specs::Format::u16, crate::specs::Format::u32))]
fn four_inside(sheet: &[u8], at: usize) -> u64
    requires { at + 4 ≤ length sheet.now }
    ensures { (result ≡ u32 sheet.now at) × (result < 4294967296) }
{
    u64::from(u32::from_le_bytes([sheet[at], sheet[at + 1], sheet[at + 2], sheet[at + 3]]))
}

#[tactic(auto, unfolding(crate::specs::Format::u16, crate::specs::Format::u32))]
pub fn four_bytes(sheet: &[u8], at: usize) -> u64
    requires { at < 4294967000 }
    ensures { (result ≡ u32 sheet.now at) × (result < 4294967296) }
{
    if at + 4 <= sheet.len() {
        return four_inside(sheet, at);
    }
    u64::from(u32::from_le_bytes([
        byte(sheet, at),
        byte(sheet, at + 1),
        byte(sheet, at + 2),
        byte(sheet, at + 3),
    ]))
}
