// The event program: document 01, "The event program". It reads an opening part and events from standard input, and prints a line for each event
// as soon as the event has arrived. What is read, answered and printed is said in the crates program and batch; here is the input and output.
#![tactic(auto)]

ghost use Rattle.std.specs.Prelude.{◌≡◌, ◌-◌, ◌≤◌, IfOk, length, take, drop};

use batch::Why;
use flow::Refusal;
use program::Stop;
use shelves::Shelf;
use std::io;
use std::io::{Read, Write};
use tables::State;

// The octets of the input and of the output that are held: more than the longest opening part, the longest event with its length, and the longest
// line have.
const SIZE: usize = 65536;

// More events than any run of the program has.
const EVENTS: u64 = 9223372036854775808;

// Reads once, after what is held. Returns how much is held then: no more than before where the input has ended.
fn fill(rt: &HostRuntime, input: &mut [u8], held: usize) -> io::Result<usize>
    requires { held ≤ length input.old }
    ensures { IfOk result (λ more. (held ≤ more) × (more ≤ length input.old)) }
{
    let got = rt.stdin().read(&mut input[held..])?;
    Ok(held + got)
}

// Moves what is held from a place on to the front, and returns how much that is.
fn shift(input: &mut [u8], from: usize, held: usize) -> usize
    requires { (from ≤ held) × (held ≤ length input.old) }
    ensures { (result ≡ held - from) × (take result input.new ≡ take result (drop from input.old)) }
{
    input.copy_within(from..held, 0);
    held - from
}

// Reads until the opening part is whole or bad, or the input ends; how often is not known before. Returns how much is held then.
fn begin(rt: &HostRuntime, input: &mut [u8]) -> io::Result<usize>
    ensures { IfOk result (λ held. held ≤ length input.old) }
{
    let mut held: usize = 0;
    while let Err(Stop::More) = program::read_opening(&input[..held]) {
        let more = fill(rt, input, held)?;
        if more == held {
            break;
        }
        held = more;
    }
    Ok(held)
}

// Prints a line with no answer.
fn print_refused(rt: &HostRuntime, place: u64, refusal: Refusal) -> io::Result<()> {
    let mut line = [0u8; limits::LINE];
    let len = program::put_line(&mut line, place, refusal.into(), &[]);
    rt.stdout().write_all(&line[..len])
}

// Moves what is left to the front, and reads on. Returns how much is held then: 0 where the input has ended, and a cut event has its line.
fn read_on(
    rt: &HostRuntime,
    input: &mut [u8],
    from: usize,
    held: usize,
    place: u64,
) -> io::Result<usize>
    requires { (from ≤ held) × (held ≤ length input.old) }
    ensures { IfOk result (λ more. more ≤ length input.old) }
{
    let rest = shift(input, from, held);
    let more = fill(rt, input, rest)?;
    if more == rest {
        if 0 < rest {
            print_refused(rt, place, Refusal::Form)?;
        }
        return Ok(0);
    }
    Ok(more)
}

// Answers events until the input ends, or what stands there is no event.
fn run(
    rt: &HostRuntime,
    state: &mut State,
    shelf: &Shelf,
    input: &mut [u8],
    out: &mut [u8],
    from: usize,
    first: usize,
) -> io::Result<()>
    requires { (from ≤ first) × (first ≤ length input.old) × (length input.old ≤ 65536) }
{
    let mut at = from;
    let mut held = first;
    let mut place: u64 = 1;
    for _ in 0..u64::MAX {
        if EVENTS < place {
            break;
        }
        let batch = batch::serve(state, shelf, &input[..held], at, place, out);
        rt.stdout().write_all(&out[..batch.len])?;
        at = batch.at;
        place = batch.place;
        match batch.why {
            Why::Bad => break,
            Why::Full => {}
            Why::More => {
                held = read_on(rt, input, at, held, place)?;
                at = 0;
                if held == 0 {
                    break;
                }
            }
        }
    }
    Ok(())
}

fn main(rt: HostRuntime) -> io::Result<()> {
    let mut input = [0u8; SIZE];
    let mut out = [0u8; SIZE];
    let held = begin(&rt, &mut input)?;
    let Ok(part) = program::read_opening(&input[..held]) else {
        return print_refused(&rt, 0, Refusal::NotOpen);
    };
    let shelf = program::shelf_of(&input[..held], part.rows, part.at);
    let mut state = opening::closed();
    let domain = shelves::part(&input, part.domain);
    if let Err(refusal) = opening::open(&mut state, domain, part.restart, part.lifetime) {
        return print_refused(&rt, 0, refusal);
    }
    run(
        &rt, &mut state, &shelf, &mut input, &mut out, part.end, held,
    )
}
