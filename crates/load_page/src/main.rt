// Prints the load page of the sheet on standard input, or REFUSED and the refusal's number. Document 02, C-15.
#![tactic(auto)]

ghost use Rattle.std.specs.Prelude.{◌≡◌, ◌≤◌, ◌<◌, length, take};
ghost use Rattle.std.specs.Counts.{IsPrefixLen};
ghost use Rattle.std.specs.Io.{ReadsAtMost};
ghost use Rattle.std.proofs.lemmas.List.Edits.{sets};
ghost use Rattle.text.specs.Text.{digit};
ghost use Rattle.janssen.specs.program.Pressure.{computed};
ghost use Rattle.sheet.specs.Refusal.{refusal_of};
ghost use Rattle.page.specs.Page.{page_due};
ghost use Rattle.load_page.specs.Reply.{refused_text, printed};

use std::io;
use std::io::Read;

// The character of a digit.
fn digit_of(n: u32) -> u8
    requires { n < 10 }
    ensures { result ≡ digit n }
{
    b'0' + n as u8
}

// REFUSED, a space, the number and a line feed, from the buffer's start; how many bytes they are.
// Not by `write!`: its contract tells the text only where it answers Ok, and not that it does where there is room.
fn put_refused(out: &mut [u8], n: u32) -> usize
    requires { (n < 100) × (11 ≤ length out.old) }
    ensures count { result ≡ length (refused_text n) }
    ensures text { out.new ≡ sets out.old 0 (refused_text n) }
{
    out[..8].copy_from_slice(b"REFUSED ");
    if n < 10 {
        out[8] = digit_of(n);
        out[9] = b'\n';
        return 10;
    }
    out[8] = digit_of(n / 10);
    out[9] = digit_of(n % 10);
    out[10] = b'\n';
    11
}

// How many bytes the page of a sheet that is not refused has.
#[tactic(auto, using(crate::proofs::Texts::told_of_page))]
fn page_bytes(sheet: &[u8]) -> usize
    ensures { refusal_of sheet.now ≡ 0 → result ≡ page_due sheet.now }
{
    page::page_length(sheet).unwrap_or(0) as usize
}

// The text for a sheet, at the start of a buffer that has room for the longest; how many bytes it has.
fn reply(sheet: &[u8], out: &mut [u8]) -> usize
    requires { 16384 ≤ length out.old }
    ensures count { IsPrefixLen result out.new }
    ensures text { take result out.new ≡ printed computed sheet.now }
{
    match page::page(sheet, out) {
        Ok(()) => page_bytes(sheet),
        Err(refusal) => put_refused(out, refusal.into()),
    }
}

// Reads until the buffer is full or the input ends; how many bytes it put at the buffer's start. A read that fails is no end.
// Not by std's read_exact, which does not tell how many bytes came before the end, nor by read_to_end, which needs a heap.
fn read_full<R: Read>(input: &mut R, buf: &mut [u8]) -> io::Result<usize>
    ensures { ReadsAtMost result buf.new }
{
    let mut done = 0;
    while done < buf.len() {
        let n = input.read(&mut buf[done..])?;
        if n == 0 {
            break;
        }
        done += n;
    }
    Ok(done)
}

fn main(rt: HostRuntime) {
    // One byte more than the longest sheet, so that a longer one is seen.
    let mut sheet = [0u8; 1025];
    let Ok(n) = read_full(&mut rt.stdin(), &mut sheet) else {
        let _ = rt.eprintln("load_page: standard input cannot be read");
        return;
    };
    let mut out = [0u8; 16384];
    let k = reply(&sheet[..n], &mut out);
    if rt.write_all(&out[..k]).is_err() {
        let _ = rt.eprintln("load_page: standard output cannot be written");
    }
}
