// The stretch of each process, read off a table's cells.
#![tactic(auto)]

ghost use Rattle.std.specs.Prelude.{◌≡◌, cond, ◌≤◌, ltb, length, take};
ghost use Rattle.figures.specs.Flat.{sure_rest, plain};
ghost use Rattle.language.specs.Limits.{process_limit};
ghost use Rattle.stretch.specs.Marks.{cell_mark, marks_between, processes_from, marks_to};
ghost use Rattle.stretch.specs.Inside.Roles.{marked};
ghost use Rattle.stretch.specs.Inside.Measured.{alone, measured_from, measured};
ghost use Rattle.stretch.specs.Reported.{Reported};
ghost use Rattle.stretch.specs.Inside.Scan.{Scannable, RunTells, BodyTells};

use cells::decoder::cell_at;
use figures::Figures;
use figures::runs::LIMIT;
use language::{Cell, Cells, Heads, LOOPS};

/// Why a table has no largest stretch.
#[derive(Clone, Copy, PartialEq, Eq, Debug)]
pub enum StretchFault {
    /// A stretch is over 4,096: the lowest process number, from 1.
    Over(u32),
    /// Loops do not nest, or nest deeper than 8.
    Broken,
}

// What the stretch needs of a statement.
#[derive(Clone, Copy)]
enum Role {
    Other,
    SureRest,
    Loop(u32),
    End,
}

// What a scan finds where the loops nest: figures, and the place after what was scanned.
#[derive(Clone, Copy)]
struct Ran {
    figures: Figures,
    next: usize,
}

// "WAIT TIME and WAIT BYTE above zero".
fn rest_above_zero(n: u32) -> Role
    ensures { marked result ≡ cond (ltb 0 n) sure_rest plain }
{
    if 0 < n { Role::SureRest } else { Role::Other }
}

// Which cells are sure rests.
fn role_of(c: Cell) -> Role
    ensures { marked result ≡ cell_mark c }
{
    match c {
        Cell::Loop(n) => Role::Loop(u32::from(n)),
        Cell::End => Role::End,
        Cell::WaitTime(n) => rest_above_zero(n),
        Cell::WaitData(_) => Role::SureRest,
        Cell::WaitByte(n) => rest_above_zero(u32::from(n)),
        Cell::WaitClock(_) => Role::SureRest,
        // An arm of its own, which the must-fail edit signal_wait_rests alters: its old text may stand once alone.
        Cell::WaitSignal(_) => Role::Other,
        _ => Role::Other,
    }
}

// The figures of the statements from `at` on, up to the END of their loop or, where none is open, the place `end`, and the place after that.
// Of eight loops `left` are left: at the top all, in a body one less.
#[cycle(body_figures_run_figures)]
fn run_figures(cells: &Cells, at: usize, end: usize, left: usize) -> Option<Ran>
    requires { Scannable cells.now at end left }
    ensures { RunTells (marks_to cells.now end) at left result }
{
    let mut sum = Figures::nothing();
    let mut i = at;
    // Not a `for`: the place goes past a loop's body at once.
    while i < end {
        let role = role_of(cell_at(cells, i));
        match role {
            Role::Other => {
                sum = sum.join(Figures::plain());
                i += 1;
            }
            Role::SureRest => {
                sum = sum.join(Figures::sure_rest());
                i += 1;
            }
            Role::Loop(n) => {
                let entered = sum.join(Figures::plain());
                let passes = body_figures(cells, i + 1, end, left, n)?;
                sum = entered.join(passes.figures);
                i = passes.next;
            }
            Role::End => {
                if left < LOOPS {
                    return Some(Ran {
                        figures: sum,
                        next: i + 1,
                    });
                }
                return None;
            }
        }
    }
    if left == LOOPS {
        return Some(Ran {
            figures: sum,
            next: i,
        });
    }
    None
}

// The figures of all passes of LOOP n, whose body starts at `at`, and the place after its END.
#[cycle(body_figures_run_figures)]
fn body_figures(cells: &Cells, at: usize, end: usize, left: usize, n: u32) -> Option<Ran>
    requires { Scannable cells.now at end left }
    ensures { BodyTells (marks_to cells.now end) at left n result }
{
    if left == 0 {
        return None;
    }
    let once = run_figures(cells, at, end, left - 1)?;
    Some(Ran {
        figures: once.figures.passes(n),
        next: once.next,
    })
}

// The stretch of one process, by the places of its first cell and after its last, 4,097 standing for all over 4,096 as the figures'
// definitions have it, which may not change; none where its loops do not nest. Places after the table have no cells.
fn measure(cells: &Cells, from: usize, end: usize) -> Option<u32>
    ensures { result ≡ alone (marks_between cells.now from end) }
{
    let behind = end.min(cells.len());
    let all = run_figures(cells, from.min(behind), behind, LOOPS)?;
    Some(all.figures.longest)
}

// The first `count` processes, by the places after their last cells.
fn measure_all<'a>(cells: &'a Cells, ends: &'a [u16], count: usize) -> Result<u32, StretchFault>
    requires { length ends.now ≤ process_limit }
    ensures { result ≡ measured_from 1 0 (processes_from cells.now 0 (take count ends.now)) }
{
    let mut best: u32 = 0;
    let mut from: usize = 0;
    for (i, end) in ends[..count.min(ends.len())].iter().enumerate() {
        let end = usize::from(*end);
        let Some(stretch) = measure(cells, from, end) else {
            return Err(StretchFault::Broken);
        };
        if LIMIT < stretch {
            return Err(StretchFault::Over(i as u32 + 1));
        }
        best = best.max(stretch);
        from = end;
    }
    Ok(best)
}

/// The largest stretch of any process of a table; or why there is none.
pub fn largest(cells: &Cells, heads: Heads) -> Result<u32, StretchFault>
    ensures value { result ≡ measured cells.now heads }
    ensures reported { Reported cells.now heads result }
{
    measure_all(cells, &heads.ends, usize::from(heads.processes))
}
