// Document 01's limits and the lengths of the arrays, as the code has them: held here, once, against the definitions.
ghost use Rattle.std.specs.Prelude.{◌≡◌};
ghost use Rattle.language.specs.Limits.{limits};

use crate::{
    CELL_PLACES, DATA, DRAIN, LETTER_PLACES, LETTERS, LINE, LINES, LISTING, LOG_ROOM, LOOP_PLACES,
    LOOPS, OMIT_PLACES, OMITS, POOL_PLACES, PROCESS_PLACES, PROCESSES, SEND_ROOM, SIGNALS, TEXT,
    WAIT_ROOM,
};

#[derive(Clone, Copy)]
pub struct Limits {
    pub text: usize,
    pub line: usize,
    pub lines: usize,
    pub data: usize,
    pub loops: usize,
    pub processes: usize,
    pub omits: usize,
    pub letters: usize,
    pub signals: usize,
    pub drain: usize,
    pub listing: usize,
    pub send_room: usize,
    pub wait_room: usize,
    pub log_room: usize,
    pub cell_places: usize,
    pub pool_places: usize,
    pub process_places: usize,
    pub loop_places: usize,
    pub omit_places: usize,
    pub letter_places: usize,
}

/// What each constant is.
pub fn in_code() -> Limits
    ensures { result ≡ limits }
{
    Limits {
        text: TEXT,
        line: LINE,
        lines: LINES,
        data: DATA,
        loops: LOOPS,
        processes: PROCESSES,
        omits: OMITS,
        letters: LETTERS,
        signals: SIGNALS,
        drain: DRAIN,
        listing: LISTING,
        send_room: SEND_ROOM,
        wait_room: WAIT_ROOM,
        log_room: LOG_ROOM,
        cell_places: CELL_PLACES,
        pool_places: POOL_PLACES,
        process_places: PROCESS_PLACES,
        loop_places: LOOP_PLACES,
        omit_places: OMIT_PLACES,
        letter_places: LETTER_PLACES,
    }
}
