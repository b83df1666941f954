// Replays a strip from standard input, in hexadecimal, into a log of tenths, and prints what the log answers.
#![tactic(auto)]

use arrayvec::ArrayVec;
use console::{Hex, LineBuffer};
use firing_log::Space;
use hex::decode;
use reading::Tenths;
use shape::BallotWalk;
use std::io;
use std::io::Read;
use strip::{ReplayFault, replay};

mod hex;

const CAPACITY: usize = 2_048;
// The blocks of eight that the capacity has, and thirteen entries for each.
const BLOCKS: usize = CAPACITY / 8;

const ENTRIES: usize = 13 * BLOCKS;
// The bytes of the longest strip, of 32,768 readings.
const STRIP: usize = 2 + 32_768 / 4;

// Reads the first line of standard input, or as much of it as there is room for.
// It reads a byte at a time, so that nothing behind the line is waited for.
fn read_line(rt: &HostRuntime) -> io::Result<LineBuffer> {
    let mut input = rt.stdin();
    let mut line = LineBuffer::new();
    while !line.is_full() {
        let mut byte = [0];
        if input.read(&mut byte)? == 0 || byte[0] == b'\n' {
            break;
        }
        line.push(byte[0]);
    }
    Ok(line)
}

// What the replayed log answers, and its own strip.
#[derive(Drop)]
struct Answers {
    count: usize,
    coldest: Option<usize>,
    strip: ArrayVec<u8, STRIP>,
}

fn play(bytes: &[u8]) -> Result<Answers, ReplayFault> {
    let mut space = Space::<Tenths, CAPACITY, BLOCKS, ENTRIES>::new(Tenths(0));
    let mut memory = space.memory();
    let sheet = replay(bytes, CAPACITY, &mut memory, &BallotWalk)?;
    let count = sheet.count();
    let coldest = match count.checked_sub(1) {
        Some(last) => Some(sheet.coldest(&memory, &BallotWalk, 0, last)?.0),
        None => None,
    };
    let mut strip = ArrayVec::from([0; STRIP]);
    let len = sheet.write_strip(&memory, &mut strip)?;
    strip.truncate(len);
    Ok(Answers {
        count,
        coldest,
        strip,
    })
}

fn print(rt: &HostRuntime, answers: &Answers) -> io::Result<()> {
    println!(rt; "count {}", answers.count)?;
    match answers.coldest {
        Some(place) => println!(rt; "coldest {place}")?,
        None => println!(rt; "coldest none")?,
    }
    println!(rt; "strip {}", Hex(&answers.strip))
}

fn main(rt: HostRuntime) -> io::Result<()> {
    let line = read_line(&rt)?;
    let Some(bytes) = decode::<STRIP>(line.bytes()) else {
        return println!(rt; "no text");
    };
    match play(&bytes) {
        Ok(answers) => print(&rt, &answers),
        Err(ReplayFault::OfStrip(fault)) => println!(rt; "no strip {}", fault.code()),
        Err(ReplayFault::OfLog(fault)) => println!(rt; "no log {}", fault.code()),
    }
}
