// A shift at the oven: reads lines of readings, clearances and bakes from standard input, and answers each with a line.
#![tactic(auto)]

mod command;
mod hand;
mod play;
mod refusal;
mod reply;

use command::Command;
use firing_log::{Sheet, Space};
use hand::Hand;
use play::Oven;
use reading::Tenths;
use shape::BallotWalk;
use std::io;
use std::io::{BufRead, BufReader};

const CAPACITY: usize = 2_048;
// The blocks of eight that the capacity has, and thirteen entries for each.
const BLOCKS: usize = CAPACITY / 8;

const ENTRIES: usize = 13 * BLOCKS;

// Answers one line. The hand comes back also where reading or printing fails.
fn turn(
    rt: &HostRuntime,
    oven: &mut Oven<'_, Tenths, BallotWalk>,
    hand: Hand,
    line: io::Result<String>,
) -> (Hand, io::Result<()>) {
    let line = match line {
        Ok(line) => line,
        Err(error) => return (hand, Err(error)),
    };
    let (hand, answer) = match line.as_str().parse::<Command<Tenths>>() {
        Ok(command) => oven.play(hand, command),
        Err(refusal) => (hand, Err(refusal)),
    };
    let printed = match answer {
        Ok(reply) => println!(rt; "{reply}"),
        Err(refusal) => println!(rt; "{refusal}"),
    };
    (hand, printed)
}

// Answers standard input to its end. A bake that is then still on the stone is abandoned.
fn run(rt: &HostRuntime, oven: &mut Oven<'_, Tenths, BallotWalk>) -> io::Result<()> {
    let input = BufReader::new(rt.alloc(), rt.stdin())?;
    let mut hand = Hand::Empty;
    let mut outcome = Ok(());
    for line in input.lines(rt.alloc()) {
        (hand, outcome) = turn(rt, oven, hand, line);
        if outcome.is_err() {
            break;
        }
    }
    hand.put_down();
    outcome
}

fn main(rt: HostRuntime) -> io::Result<()> {
    let mut space = Space::<Tenths, CAPACITY, BLOCKS, ENTRIES>::new(Tenths(0));
    let memory = space.memory();
    // The memory is long enough, so that the log opens.
    let sheet = Sheet::open(CAPACITY, &memory).unwrap();
    let mut oven = Oven {
        sheet,
        memory,
        answerer: BallotWalk,
    };
    run(&rt, &mut oven)
}
