// The bench: reads commands from standard input, a line each, and answers each with a line.
#![tactic(auto)]

ghost use Rattle.std.specs.Prelude.{[]};
ghost use Rattle.panel.specs.Firing.{Keeps};
ghost use Rattle.panel.specs.Of.{roll_state};
ghost use Rattle.bench.specs.Right.{RightSoFar};

use console::LineReader;
use firing_log::{Sheet, Space};
use panel::{Answer, Bench, Panel, Refusal, Roll};
use reading::{Probe, Reading, Reversed, Tenths};
use shape::{MaskTable, fill_masks};
use std::io;
use std::io::Read;

const CAPACITY: usize = 2_048;
// One for each eight readings.
const BLOCKS: usize = CAPACITY / 8;
// Thirteen for each block.
const ENTRIES: usize = 13 * BLOCKS;
// Eight places for each of 1,430 shape numbers.
const CELLS: usize = 1_430 * 8;

// Prints what a line is answered with.
fn print(rt: &HostRuntime, reply: Result<Answer, Refusal>) -> io::Result<()> {
    match reply {
        Ok(answer) => println!(rt; "{answer}"),
        Err(refusal) => println!(rt; "{refusal}"),
    }
}

// Feeds bytes to the bench, and prints what it answers.
fn feed(rt: &HostRuntime, bench: &mut Bench<'_>, bytes: &[u8]) -> io::Result<()>
    requires { RightSoFar bench.old }
    ensures { RightSoFar bench.new }
{
    for &byte in bytes {
        if let Some(reply) = bench.feed(byte) {
            print(rt, reply)?;
        }
    }
    Ok(())
}

// Answers standard input to its end.
fn run(rt: &HostRuntime, bench: &mut Bench<'_>) -> io::Result<()>
    requires { RightSoFar bench.old }
{
    let mut input = rt.stdin();
    let mut bytes = [0; 4096];
    // Nothing says that an input ends, and a loop with no end would need the handle `Wait`.
    for _ in 0..u64::MAX {
        let len = input.read(&mut bytes)?;
        if len == 0 {
            break;
        }
        feed(rt, bench, &bytes[0..len])?;
    }
    bench.finish().map_or(Ok(()), |reply| print(rt, reply))
}

// A new log in its memory.
fn roll<K: Reading>(space: &mut Space<K, CAPACITY, BLOCKS, ENTRIES>) -> Roll<'_, K>
    ensures { Keeps K.Reading.colder 2048 (roll_state result) [] }
{
    let memory = space.memory();
    let sheet = Sheet::open(CAPACITY, &memory).unwrap();
    Roll { sheet, memory }
}

fn main(rt: HostRuntime) -> io::Result<()> {
    let mut cells = [0; CELLS];
    let mut table = MaskTable::new();
    // Memory of the right length is filled, and what was filled is opened: neither is refused.
    fill_masks(&mut cells).unwrap();
    table.open(&cells).unwrap();
    let mut tenths = Space::new(Tenths(0));
    let mut reversed = Space::new(Reversed(Tenths(0)));
    let mut probes = Space::new(Probe::new(0, 0).unwrap());
    let cold = roll(&mut tenths);
    let hot = roll(&mut reversed);
    let probes = roll(&mut probes);
    let panel = Panel {
        table,
        cold,
        hot,
        probes,
    };
    let line = LineReader::new();
    run(&rt, &mut Bench { panel, line })
}
