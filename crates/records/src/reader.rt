// A record reader on the caller's sheet: a slice reference and a position. Nothing is copied. Document 01, "Sheet".
ghost use Rattle.std.specs.Prelude.{◌≡◌, ◌+◌, ◌<◌};
ghost use Rattle.records.specs.program.Reader.{Stands};

use crate::bytes::two_bytes;

#[derive(Clone, Copy)]
pub struct Reader<'a> {
    pub sheet: &'a [u8],
    pub at: usize,
}

// A record: where it begins, its kind, where its payload begins and the bytes that it has. The kind is the number sent, since rule 3 decides whether it is one.
#[derive(Clone, Copy)]
pub struct Record {
    pub place: usize,
    pub kind: u64,
    pub start: usize,
    pub length: u64,
}

// The record that begins at `at`.
pub fn record_at(sheet: &[u8], at: usize) -> Record
    requires { at < 1000000 }
    ensures { Stands sheet.now at result }
{
    Record {
        place: at,
        kind: two_bytes(sheet, at + 2),
        start: at + 4,
        length: two_bytes(sheet, at),
    }
}

// Where a record ends: behind its payload.
pub fn record_end(found: Record) -> usize
    requires { (found.start < 1000004) × (found.length < 65536) }
    ensures { result ≡ found.start + found.length }
{
    found.start + found.length as usize
}

// A reader at the sheet's first record.
pub fn start<'a>(sheet: &'a [u8]) -> Reader<'a>
    ensures { (result.sheet ≡ sheet.entry) × (result.at ≡ 0) }
{
    Reader { sheet, at: 0 }
}

// The record where the reader stands.
pub fn current<'a>(r: Reader<'a>) -> Record
    requires { r.at < 1000000 }
    ensures { Stands r.entry.sheet.now r.entry.at result }
{
    record_at(r.sheet, r.at)
}

// The reader behind a record that it found.
pub fn behind<'a>(r: Reader<'a>, found: Record) -> Reader<'a>
    requires { (found.start < 1000004) × (found.length < 65536) }
    ensures { (result.sheet ≡ r.entry.sheet) × (result.at ≡ found.start + found.length) }
{
    Reader {
        sheet: r.sheet,
        at: record_end(found),
    }
}
