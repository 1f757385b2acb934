// The console of a program that runs scripts, and the places that it lends.
ghost use Rattle.std.specs.Prelude.{◌<◌, ◌≤◌, length, take, IfOk, OnOk};
ghost use Rattle.std.specs.Io.KnownBytes.{Consumes, IsAtEnd};
ghost use Rattle.script.specs.Sources.{RunFrom};

use crate::interpreter::{Session, interpret};
use crate::output::Output;
use crate::reader::LONGEST;
use analysis::minimal_sets::MOST_SETS;
use std::fmt::Display;
use std::io;
use std::io::Read;
use structure::structure::MAX_ORDER;

pub const SETS: usize = MOST_SETS;

// As many entries as the signature of 16 parts has.
pub const NUMBERS: usize = MAX_ORDER + 2;

// One byte more than a script may have, so that a longer one shows.
pub const INPUT: usize = LONGEST + 1;

#[derive(Clone, Copy)]
pub struct Console<'a> {
    pub rt: &'a HostRuntime,
}

impl Output for Console<'_> {
    type Error = io::Error;

    ghost printed = { λ _ _ _. Unit {0} };

    fn print<L: Display>(&mut self, line: &L) -> io::Result<()> {
        println!(self.rt; "{line}")
    }
}

// How many bytes of `input` the source fills.
pub fn read_into<R: Read>(source: &mut R, input: &mut [u8]) -> io::Result<usize>
    ensures within { IfOk result (λ filled. filled ≤ length input.old) }
    ensures bytes { IfOk result (λ filled. Consumes (R.remaining source.old) (R.remaining source.new) (take filled input.new)) }
    ensures end { IfOk result (λ filled. filled < length input.old → IsAtEnd (R.remaining source.new)) }
{
    // A script may be shorter than the buffer, which `read_exact` refuses, and `read_to_end` takes the heap.
    let mut filled = 0;
    while filled < input.len() {
        let count = source.read(&mut input[filled..])?;
        if count == 0 {
            break;
        }
        filled += count;
    }
    Ok(filled)
}

// Runs the script that the source holds, with places of its own, and prints its lines.
pub fn run_from<S: Session, R: Read>(
    rt: &HostRuntime,
    source: &mut R,
    run: &mut S,
) -> io::Result<()>
    ensures { (p : S.Progress) → S.stands run.old p → OnOk result (RunFrom S.effects S.stands S.Command.forms p (R.remaining source.old) (R.remaining source.new) run.new) }
{
    let mut input = [0u8; INPUT];
    let mut sets = [0u16; SETS];
    let mut numbers = [0u64; NUMBERS];
    let filled = read_into(source, &mut input)?;
    interpret(
        run,
        &input[..filled],
        &mut sets,
        &mut numbers,
        &mut Console { rt },
    )
}
