// A text compiled: its stretch and the parts of the table that tell one short script from another, or the refusal.
use super::output::{print, say};
use super::spelling::spell;
use compiler::compile;
use compiler::faults::number;
use console::parts::{first, rest_from};
use language::{Heads, Table};

fn say_heads(rt: HostRuntime, heads: Heads) {
    let processes = heads.processes;
    let used = heads.used;
    let encode = heads.encode;
    let omits = heads.omits;
    let [omit, ..] = heads.omit;
    print(rt, format_args!(", processes {processes}"));
    print(rt, format_args!(", data {used}"));
    print(rt, format_args!(", encode {encode}"));
    print(rt, format_args!(", omit {omits}"));
    print(rt, format_args!(" {omit}"));
    say(rt, b", extension ");
    say(rt, &heads.extension);
    if heads.two_stop_bits {
        say(rt, b", two stop bits");
    }
}

// The first three cells, and the heads.
fn say_table(rt: HostRuntime, table: &Table) {
    let [a, b, c, ..] = table.cells;
    print(rt, format_args!(", cells {a}"));
    print(rt, format_args!(" {b}"));
    print(rt, format_args!(" {c}"));
    say_heads(rt, table.heads);
}

// Each program spells a refusal: the core has no printing.
fn answer(rt: HostRuntime, text: &[u8]) {
    let compiled = compile(text);
    match compiled.answer {
        Ok(stretch) => {
            print(rt, format_args!(": stretch {stretch}"));
            say_table(rt, &compiled.table);
        }
        Err(refusal) => {
            let number = number(refusal.fault);
            let line = refusal.line;
            let column = refusal.column;
            print(rt, format_args!(": refused {number}"));
            print(rt, format_args!(" at {line}"));
            print(rt, format_args!(",{column}"));
        }
    }
}

// The text or its name, and what came back: the text begins after the bar, if there is one.
pub(crate) fn compiled(rt: HostRuntime, line: &[u8]) {
    let (name, spelled) = match line.iter().position(|b| *b == b'|') {
        Some(bar) => (first(line, bar), rest_from(line, bar + 1)),
        None => (line, line),
    };
    match spell(rt.alloc(), spelled) {
        Ok(text) => {
            say(rt, name);
            answer(rt, &text);
        }
        Err(_) => {
            let _ = rt.eprintln("out of memory");
        }
    }
}
