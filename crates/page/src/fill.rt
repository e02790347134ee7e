// The page, line by line, from the answer list.
ghost use Rattle.std.specs.Prelude.{◌≡◌, ℕ, ◌+◌, ◌-◌, ◌*◌, ◌^◌, ◌≤◌, ◌<◌, length, get_or};
ghost use Rattle.std.proofs.lemmas.List.Edits.{sets};
ghost use Rattle.description.specs.Silo.{depth_count};
ghost use Rattle.answers.specs.Place.{load_place, bottom_place};
ghost use Rattle.answers.specs.program.Fill.{answers};
ghost use Rattle.page.specs.Page.{heading as heading_line, page_due};
ghost use Rattle.page.specs.program.Text.{row_text, number_text, rows, rest, page_text};

use answers::place::Places;
use sheet::accepted::AcceptedSheet;

// The heading's bytes. A function, since with the bytes written out in `put_page` its goals do not close.
#[tactic(auto, unfolding(crate::specs::Page::heading))]
fn heading() -> [u8; 73]
    ensures { result ≡ heading_line }
{
    *b"        z      phf      pwf      pvf       PW      phe      pwe       pp\n"
}

// One number and a line feed, from the place `at` on.
#[tactic(auto, using(crate::proofs::Lines::line_stored, text::proofs::Fields::field_length), unfolding(crate::specs::program::Text::number_text))]
fn put_line(out: &mut [u8], at: usize, n: u32)
    requires { (n < 10 ^ 9) × (at + 10 ≤ length out.old) }
    ensures { out.new ≡ sets out.old at (number_text n) }
{
    text::put_number(out, at, n);
    out[at + 9] = b'\n';
}

// An answer list as the page prints it: each number has at most nine digits.
#[derive(Clone, Copy)]
struct AnswerList<'a> {
    numbers: &'a [u32],
    places: Places,
    ghost digits: { (k : ℕ) → get_or numbers.now k 0 < 10 ^ 9 },
    ghost whole: { bottom_place places.depths 0 ≤ length numbers.now },
}

impl<'a> AnswerList<'a> {
    // The line of the depth i, from the place `at` on.
    #[tactic(auto, using(answers::proofs::Stores::each_done, crate::proofs::Lines::columns_length, crate::proofs::Lines::line_stored), unfolding(crate::specs::program::Text::row_text))]
    fn put_row(&self, out: &mut [u8], at: usize, i: usize)
        requires { (at + 73 ≤ length out.old) × (i < self.now.places.depths) }
        ensures { out.new ≡ sets out.old at (row_text load_place self.now.numbers.now self.now.places.depths i) }
    {
        for j in 0..8 {
            text::put_number(out, at + 9 * j, self.numbers[self.places.load(j, i)]);
        }
        out[at + 72] = b'\n';
    }

    // A line for each depth, behind the heading.
    #[tactic(auto, using(answers::proofs::Stores::each_next, answers::proofs::Stores::each_done, crate::proofs::Lines::row_length))]
    fn put_rows(&self, out: &mut [u8])
        requires { 73 + 73 * self.now.places.depths ≤ length out.old }
        ensures { out.new ≡ sets out.old 73 (rows load_place self.now.numbers.now self.now.places.depths) }
    {
        for i in 0..self.places.depths {
            self.put_row(out, 73 + 73 * i, i);
        }
    }

    // A line for each number behind those of the depths, from the place `at` on.
    fn put_rest(&self, out: &mut [u8], at: usize)
        requires { at + 10 * (length self.now.numbers.now - bottom_place self.now.places.depths 0) ≤ length out.old }
        ensures { out.new ≡ sets out.old at (rest self.now.numbers.now (bottom_place self.now.places.depths 0)) }
    {
        for (k, n) in self.numbers[self.places.bottom()..].iter().enumerate() {
            put_line(out, at + 10 * k, *n);
        }
    }

    // The whole page.
    fn put_page(&self, out: &mut [u8])
        requires { 73 + 73 * self.now.places.depths + 10 * (length self.now.numbers.now - bottom_place self.now.places.depths 0) ≤ length out.old }
        ensures { out.new ≡ sets out.old 0 (page_text load_place self.now.numbers.now self.now.places.depths) }
    {
        out[..73].copy_from_slice(&heading());
        self.put_rows(out);
        self.put_rest(out, 73 + 73 * self.places.depths);
    }
}

// Room for every answer list, of at most 8·200 + 10 + 24 numbers. A function, since with the array written out in `fill` its goals do not close.
fn blank() -> [u32; 1650]
    ensures { 1650 ≡ length result }
{
    [0; 1650]
}

// The page of an accepted sheet, in a buffer that has room for it.
#[tactic(auto, using(crate::proofs::Room::answers_few, crate::proofs::Room::rows_inside, crate::proofs::Room::page_room, answers::proofs::Places::length_answers))]
pub fn fill(accepted: &AcceptedSheet, out: &mut [u8])
    requires { page_due accepted.now.sheet.now ≤ length out.old }
    ensures { out.new ≡ sets out.old 0 (page_text load_place (answers accepted.now.sheet.now) (depth_count accepted.now.sheet.now)) }
{
    let depths = accepted.described.depths.count;
    let places = Places { depths };
    let due = places.length_due(accepted.described.wall.count);
    let mut room = blank();
    let numbers = &mut room[..due];
    answers::fill::fill(accepted, numbers);
    let list = AnswerList { numbers, places };
    list.put_page(out);
}
