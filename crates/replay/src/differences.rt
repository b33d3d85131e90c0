// The first difference of two texts, told by its line.
use console::parts::{first, place_of, rest_from};

// Where two texts part, or where the shorter one ends.
fn parting(a: &[u8], b: &[u8]) -> usize {
    let parted = a.iter().zip(b).position(|(x, y)| x != y);
    parted.unwrap_or(a.len().min(b.len()))
}

// A line from its first byte on, its CR with it, where the text has such a line.
fn line_from(text: &[u8], start: usize) -> Option<&[u8]> {
    if text.len() <= start {
        return None;
    }
    let line = rest_from(text, start);
    Some(first(line, place_of(line, 0, b'\n')))
}

// A CR is shown only where it is the difference.
fn bare<'a>(line: &'a [u8], other: Option<&[u8]>) -> &'a [u8] {
    let is_same = other.is_none_or(|other| other.ends_with(b"\r"));
    match line.strip_suffix(b"\r") {
        Some(bare) if is_same => bare,
        _ => line,
    }
}

// The first line that two texts have not in common: its number, from 1, and what each has there.
#[derive(Clone, Copy)]
pub struct Difference<'a> {
    pub number: usize,
    pub expected: Option<&'a [u8]>,
    pub came: Option<&'a [u8]>,
}

pub(crate) fn first_difference<'a>(held: &'a [u8], came: &'a [u8]) -> Difference<'a> {
    let before = first(held, parting(held, came));
    let is_end = |b: &u8| *b == b'\n';
    let start = before.iter().rposition(is_end).map_or(0, |i| i + 1);
    let expected = line_from(held, start);
    let got = line_from(came, start);
    Difference {
        number: 1 + before.iter().filter(|b| is_end(b)).count(),
        expected: expected.map(|line| bare(line, got)),
        came: got.map(|line| bare(line, expected)),
    }
}
