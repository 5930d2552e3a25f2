//! Takes the time of groups, pictures, loads and sameness on what cells leave.
//! `tools/time/time_pictures.py` runs it beside CPython.
//!
//! The input is a number of turns on a line of its own, and then cells, with an empty line between them.
//! On standard output goes what was found: how many groups there are, how many bytes the picture of all
//! names has, how many nodes its load makes, and whether what was loaded is the same. On standard error
//! go the nanoseconds that each took, the least of the turns.
#![tactic(auto)]

ghost use Rattle.std.specs.Prelude.{◌≡◌, ◌<◌};

mod state;
mod turns;

use kishu_meaning::Steps;
use state::State;
use std::io;
use std::marker::Brand;
use std::sync::ledger::{Blank, Ledger};
use turns::{Turn, take_turn};

fn main(rt: HostRuntime) -> io::Result<()> {
    let input = io::read_to_string(rt.alloc(), rt.stdin())?;
    run(&rt, &input)
}

/// Takes the turns of an input, with a counter of its own.
fn run(rt: &HostRuntime, input: &String) -> io::Result<()> {
    run_counted::<Brand>(rt, input, Blank::new(1))
}

/// Takes the turns of an input. The counter is made from a blank page.
fn run_counted<L: Ledger>(rt: &HostRuntime, input: &String, blank: Blank) -> io::Result<()>
    requires name { blank.name ≡ L.name }
    requires parts { blank.parts ≡ L.parts }
    requires some { 0 < L.parts }
{
    let mut steps = Steps::<L>::new(blank);
    match input.as_str().split_once('\n') {
        Some((turns, cells)) => take_turns(rt, turns.parse().unwrap_or(1), cells, &mut steps),
        None => Ok(()),
    }
}

/// Runs the cells, and tells of the turns over what they leave.
fn take_turns<L: Ledger>(
    rt: &HostRuntime,
    turns: u32,
    cells: &str,
    steps: &mut Steps<L>,
) -> io::Result<()> {
    let mut state = State::new(rt.alloc());
    state.run_all(rt.alloc(), cells, steps)?;
    let mut best: Option<Turn> = None;
    for _ in 0..turns {
        let Some(next) = take_turn(rt, &state, steps)? else {
            return println!(rt; "no picture");
        };
        best = Some(next.least(best));
    }
    match best {
        Some(best) => best.tell(rt),
        None => Ok(()),
    }
}
