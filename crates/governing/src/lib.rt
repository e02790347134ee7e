// Of two strake lists the one that governs a bin with two products. Document 01, "Answer list".
#![tactic(auto)]

ghost use Rattle.std.specs.Prelude.{◌≡◌};
ghost use Rattle.governing.specs.Strakes.{governs, governs_number};
ghost use Rattle.governing.specs.Handed.{Handed};

// Which of two strake lists governs.
#[derive(Clone, Copy, Debug, PartialEq, Eq)]
pub enum Governs {
    First,
    Second,
}

// The one with the greater last number, at the wall's foot, the first when equal; none if the lengths differ or are 0.
#[tactic(auto, unfolding(crate::specs::Strakes::governs))]
pub fn which(first: &[u32], second: &[u32]) -> Option<Governs>
    ensures { result ≡ governs first.now second.now }
{
    if first.len() != second.len() {
        return None;
    }
    let (of_first, of_second) = (first.last()?, second.last()?);
    if of_first < of_second {
        return Some(Governs::Second);
    }
    Some(Governs::First)
}

// The number of an answer: 0 neither, 1 the first, 2 the second.
pub fn number(governs: Option<Governs>) -> u32
    ensures { result ≡ governs_number governs }
{
    match governs {
        None => 0,
        Some(Governs::First) => 1,
        Some(Governs::Second) => 2,
    }
}

// The list that governs, as the caller's own slice; an empty part of the first where neither does. Two lent lists and one handed back are document 01's form.
pub fn governing<'a>(first: &'a [u32], second: &'a [u32]) -> &'a [u32]
    ensures { Handed (governs first.now second.now) first.entry second.entry result }
{
    match which(first, second) {
        None => &first[..0],
        Some(Governs::First) => first,
        Some(Governs::Second) => second,
    }
}
