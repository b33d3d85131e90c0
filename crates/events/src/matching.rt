// WAIT DATA: how many bytes of the data, from their first, are the last bytes received.
ghost use Rattle.std.specs.Prelude.{◌≡◌, ℕ, ◌+◌, ◌≤◌, ◌<◌, length, drop};
ghost use Rattle.language.specs.Limits.{pool_places};
ghost use Rattle.process.specs.Matching.{advance};
ghost use Rattle.events.specs.Inside.Links.{Linked};
ghost use Rattle.events.specs.Inside.Kept.{Kept};
ghost use Rattle.events.specs.Inside.Passing.{farther, matched_on, LinkedFor};

use language::POOL_PLACES;

// At each number of bytes matched, the number that still is where the next byte is another. At 0, which no mismatch reads, how many of them were made:
// those of 0 and of 1 are 0, and need no making.
// The count is in the table and in no struct beside: all processes share one table, and each is lent its places of it.
pub(crate) type Links = [u16; POOL_PLACES];

// How many bytes of the data are matched, and after how many of a run.
#[derive(Clone, Copy)]
pub(crate) struct Matched {
    pub(crate) matched: usize,
    pub(crate) count: usize,
}

// The bounds are in each contract below: a struct of the data and what is matched, with a ghost field, was tried; it is made
// anew at each step, and each clause speaks of its entry: no plainer.

// The bytes matched after b, where k were matched before it: a mismatch goes from link to link to what still matches.
fn followed(want: &[u8], links: &[u16], k: usize, b: u8) -> usize
    requires { (k < length want.now) × (k < length links.now) × Linked want.now links.now k }
    ensures { result ≡ advance want.now k b }
{
    let mut j = k;
    while want[j] != b {
        if j == 0 {
            return 0;
        }
        j = usize::from(links[j]);
    }
    j + 1
}

// The links up to k, each made from those before it, and none that was made before.
fn make_links(want: &[u8], k: usize, links: &mut [u16])
    requires { (k < length want.now) × (k < length links.old) × (k < pool_places) × Kept want.now links.old }
    ensures { Linked want.now links.new k × Kept want.now links.new }
{
    let mut i = usize::from(links[0]) + 1;
    // Kept by hand: the loop goes on from where the table ended, and tells at 0 how far it came.
    while i < k {
        let j = usize::from(links[i]);
        let n = followed(want, &links[..], j, want[i]);
        i += 1;
        links[i] = n as u16;
    }
    links[0] = (i - 1) as u16;
}

// The links up to k, in a table of their own.
fn linked(want: &[u8], k: usize) -> Links
    requires { (k < length want.now) × (k < pool_places) }
    ensures { Linked want.now result k }
{
    let mut links: Links = [0; POOL_PLACES];
    make_links(want, k, &mut links);
    links
}

// The bytes matched after b, where k were matched before it.
pub(crate) fn advanced(want: &[u8], k: usize, b: u8) -> usize
    requires { (k < length want.now) × (k < pool_places) }
    ensures { result ≡ advance want.now k b }
{
    if want[k] == b {
        return k + 1;
    }
    if k == 0 {
        return 0;
    }
    let links = linked(want, k);
    followed(want, &links, k, b)
}

// As far as a run goes before a mismatch that needs links.
// Its own loop beside through_links: it has no links yet and stops where one is needed, so one for both is no plainer.
fn unlinked(want: &[u8], from: usize, run: &[u8]) -> Matched
    requires { from ≤ length want.now }
    ensures { (matched_on want.now from run.now
        ≡ farther result.count (matched_on want.now result.matched (drop result.count run.now)))
        × (result.matched ≤ length want.now) × (result.count ≤ length run.now) }
{
    let mut k = from;
    for (i, b) in run.iter().enumerate() {
        if k == want.len() {
            return Matched {
                matched: k,
                count: i,
            };
        }
        if want[k] == *b {
            k += 1;
        } else if k != 0 {
            return Matched {
                matched: k,
                count: i,
            };
        }
    }
    Matched {
        matched: k,
        count: run.len(),
    }
}

// A run through the links, up to the byte that matches all of the data.
fn through_links(want: &[u8], links: &[u16], from: usize, run: &[u8]) -> Matched
    requires { (from ≤ length want.now) × (length want.now ≤ length links.now)
        × LinkedFor want.now links.now from (length run.now) }
    ensures { result ≡ matched_on want.now from run.now }
{
    let mut k = from;
    for (i, b) in run.iter().enumerate() {
        if k == want.len() {
            return Matched {
                matched: k,
                count: i,
            };
        }
        k = followed(want, links, k, *b);
    }
    Matched {
        matched: k,
        count: run.len(),
    }
}

// The largest number of bytes below all of them that n bytes can lead to from k.
fn highest(all: usize, k: usize, n: usize) -> usize
    requires { k < all }
    ensures { (result < all) × (k ≤ result) × ((j : ℕ) → j < all → j ≤ k + n → j ≤ result) }
{
    if n < all - k { k + n } else { all - 1 }
}

// A run through the links up to k: those that are kept, or, where there is no room for them, a table of their own.
fn linked_run(want: &[u8], from: usize, run: &[u8], k: usize, kept: &mut [u16]) -> Matched
    requires { (from ≤ length want.now) × (length want.now ≤ pool_places) × (k < length want.now)
        × ((j : ℕ) → j < length want.now → j ≤ from + length run.now → j ≤ k) × Kept want.now kept.old }
    ensures { (result ≡ matched_on want.now from run.now)
        × Kept want.now kept.new }
{
    if kept.len() < want.len() {
        let links = linked(want, k);
        return through_links(want, &links, from, run);
    }
    make_links(want, k, kept);
    through_links(want, &kept[..], from, run)
}

// The bytes matched after a run, up to the first that matches all of the data. A link that is kept is not made again.
pub(crate) fn matched_run(want: &[u8], from: usize, run: &[u8], kept: &mut [u16]) -> Matched
    requires { (from < length want.now) × (length want.now ≤ pool_places) × Kept want.now kept.old }
    ensures { (result ≡ matched_on want.now from run.now)
        × Kept want.now kept.new }
{
    let first = unlinked(want, from, run);
    let at = first.count;
    if first.matched == want.len() || at == run.len() {
        return first;
    }
    let rest = &run[at..];
    let k = highest(want.len(), first.matched, rest.len());
    let last = linked_run(want, first.matched, rest, k, kept);
    Matched {
        matched: last.matched,
        count: at + last.count,
    }
}
