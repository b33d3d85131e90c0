// The script under construction, what it begins as, and what it hands back.
ghost use Rattle.std.specs.Prelude.{◌≡◌};
ghost use Rattle.language.specs.Answer.{answered};
ghost use Rattle.language.specs.Draft.{refused, start};
ghost use Rattle.compiler.specs.Inside.Drafting.{IsDraft};

use language::{CELL_PLACES, Compiled, Heads, LOOP_PLACES, POOL_PLACES, Refusal, Table, TextFault};

/// Where the lines stop: a fault, with the line that it names, as in Refusal, whose numbers may not change.
#[derive(Clone, Copy, PartialEq, Eq, Debug)]
pub struct Stop {
    pub fault: TextFault,
    pub row: u32,
}

/// The script under construction: each line is taken into it where it stands, so it is lent and never copied.
#[derive(Drop)]
pub struct Drafting {
    // How many lines besides comments there were, and how many cells are written.
    pub counted: u16,
    pub written: u16,
    // How many loops are open, and the lines that they began at, the outermost first: a count and an array, since there is no heap.
    pub opened: u8,
    pub loops: [u32; LOOP_PLACES],
    // Whether a statement or a PROCESS line has come.
    pub begun: bool,
    // The table of the script so far.
    pub table: Table,
}

impl Drafting {
    /// The draft before the first line: one process and the extension LOG.
    pub(crate) fn new() -> Drafting
        ensures { IsDraft start result }
    {
        let heads = Heads {
            processes: 1,
            extension: [b'L', b'O', b'G'],
            ..Heads::default()
        };
        Drafting {
            counted: 0,
            written: 0,
            opened: 0,
            loops: [0u32; LOOP_PLACES],
            begun: false,
            table: Table {
                cells: [0u32; CELL_PLACES],
                pool: [0u8; POOL_PLACES],
                heads,
            },
        }
    }
}

/// A refusal, with a table of zeros.
pub(crate) fn refused(refusal: Refusal) -> Compiled
    ensures { result ≡ answered (refused refusal.fault refusal.line refusal.column) }
{
    Compiled {
        answer: Err(refusal),
        table: Table {
            cells: [0u32; CELL_PLACES],
            pool: [0u8; POOL_PLACES],
            heads: Heads::default(),
        },
    }
}
