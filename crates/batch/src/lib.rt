// The events that have arrived, answered one after another, each on the state last handed back, and a line for each. Document 01, "The event program".
#![tactic(auto)]

ghost use Rattle.std.specs.Prelude.{◌+◌, ◌≤◌, ◌<◌, ◌^◌, ◌≡◌, length};
ghost use Rattle.flow.specs.Front.{Put};
ghost use Rattle.flow.specs.Reply.{told};
ghost use Rattle.limits.specs.Limits.{ROOM, LINE};
ghost use Rattle.batch.specs.Batch.{Lined, bad_line, Served};

use flow::{Refusal, Reply};
use program::Stop;
use shelves::Shelf;
use tables::State;

// Why a batch ended: more input is needed for the next event, there is no room for its line, or what stands there is no event.
#[derive(Clone, Copy, Debug, PartialEq, Eq)]
pub enum Why {
    More,
    Full,
    Bad,
}

// How far a batch went: where in the input the first event that is left starts, its place, how much is to be printed, and why it ended there.
#[derive(Clone, Copy)]
pub struct Batch {
    pub at: usize,
    pub place: u64,
    pub len: usize,
    pub why: Why,
}

// Writes the line of an event at a place of the output.
fn tell(
    answered: Result<usize, Refusal>,
    buffer: &[u8],
    place: u64,
    out: &mut [u8],
    at: usize,
) -> usize
    requires { (at + LINE ≤ length out.old) × ((told answered).len ≤ length buffer.now) × (length buffer.now ≤ ROOM) }
    ensures { Lined place (told answered) buffer.now at result out.old out.new }
{
    let reply = Reply::from(answered);
    at + program::put_line(&mut out[at..], place, reply.no, &buffer[..reply.len])
}

// The line of what stands where an event is to be and is none.
fn put_bad(out: &mut [u8], at: usize, place: u64) -> usize
    requires { at + LINE ≤ length out.old }
    ensures { Put (bad_line place) at result out.old out.new }
{
    at + program::put_line(&mut out[at..], place, Refusal::Form.into(), &[])
}

// Answers the events that have arrived, as far as there is room for their lines. It goes on while there is room, and counts nothing.
pub fn serve(
    state: &mut State,
    shelf: &Shelf,
    input: &[u8],
    from: usize,
    first: u64,
    out: &mut [u8],
) -> Batch
    requires { (from ≤ length input.now) × (first + length input.now < 2 ^ 64) }
    ensures { Served shelf.now input.now state.old from first state.new result out.old out.new }
{
    let mut batch = Batch {
        at: from,
        place: first,
        len: 0,
        why: Why::Full,
    };
    while limits::LINE <= out.len() - batch.len {
        match program::read_frame(input, batch.at) {
            Ok(frame) => {
                let mut buffer = [0u8; limits::ROOM];
                let answered = server::event(state, shelf.held(), frame.of(input), &mut buffer);
                batch.len = tell(answered, &buffer, batch.place, out, batch.len);
                batch.at = frame.end;
                batch.place += 1;
            }
            Err(Stop::More) => {
                batch.why = Why::More;
                return batch;
            }
            Err(Stop::Bad) => {
                batch.len = put_bad(out, batch.len, batch.place);
                batch.why = Why::Bad;
                return batch;
            }
        }
    }
    batch
}
