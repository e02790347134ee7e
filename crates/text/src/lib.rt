// Numbers as text in ASCII, written into a lent buffer.
#![tactic(auto)]

ghost use Rattle.std.specs.Prelude.{◌≡◌, ◌+◌, ◌^◌, ◌≤◌, ◌<◌, length};
ghost use Rattle.std.proofs.lemmas.List.Edits.{sets};
ghost use Rattle.text.specs.program.Mark.{mark, number_field};

// A digit, or a space where nothing is left of the number.
#[tactic(auto, using(crate::proofs::Fields::mark_some))]
fn mark_of(rest: u32) -> u8
    ensures { result ≡ mark rest }
{
    if rest == 0 {
        return b' ';
    }
    b'0' + (rest % 10) as u8
}

// A number of at most nine digits, right-justified with spaces in the nine characters from the place `at` on. The whole buffer is lent, since the contract says that
// the rest of it stays as it was: of a part alone it could not.
// Not by `write!`: its contract tells the text only where it answers Ok, and not that it does where there is room.
pub fn put_number(out: &mut [u8], at: usize, n: u32)
    requires { (n < 10 ^ 9) × (at + 9 ≤ length out.old) }
    ensures { out.new ≡ sets out.old at (number_field n) }
{
    out[at + 8] = b'0' + (n % 10) as u8;
    let mut rest = n / 10;
    for i in (0..8).rev() {
        out[at + i] = mark_of(rest);
        rest /= 10;
    }
}
