// One event on a state: the checks in front of every event, and then the rule of its kind. Document 01, "What goes back".
#![tactic(auto)]

ghost use Rattle.std.specs.Prelude.{option_copied, length};
ghost use Rattle.event.specs.Table.{decoded};
ghost use Rattle.event.specs.Placed.{Reads};
ghost use Rattle.shelves.specs.Shelf.{policy_as};
ghost use Rattle.outcome.specs.Outcome.{Left};
ghost use Rattle.rules.specs.Server.{step_of};
ghost use Rattle.rules.specs.History.{event_of};
ghost use Rattle.server.specs.Counts.{Counts, AsksShelf};

use event::{EventAt, KindAt};
use flow::Refusal;
use line::Span;
use shelves::{Asked, Policy, Row};
use tables::State;

// The row of the shelf table that counts for an event, if it is a KEY: any other event has none, and its rule asks for none. The NAF_Id is the FQDN,
// and then a Ua security protocol identifier.
fn row_for<'a>(rows: &'a [Row], event: Option<EventAt>, body: &[u8]) -> Option<&'a Row>
    requires { Reads body.now event }
    ensures { Counts rows.now (decoded body.now) (policy_as (option_copied result)) }
{
    let KindAt::Key(v) = event?.kind else {
        return None;
    };
    let naf = v.naf.of(body);
    shelves::lookup(rows, v.peer.of(body), &naf[..naf.len() - limits::UA])
}

// What an event does that was read from a body, where the shelf table has this row for a KEY, or none.
fn answer(
    state: &mut State,
    row: Option<&Row>,
    event: Option<EventAt>,
    body: &[u8],
    out: &mut [u8],
) -> Result<usize, Refusal>
    requires { Reads body.now event }
    ensures { Left state.old (step_of state.old (policy_as (option_copied row.entry)) (decoded body.now) (length out.old)) out.old state.new result out.new }
{
    if !state.ready {
        return Err(Refusal::NotOpen);
    }
    if out.len() < limits::ROOM {
        return Err(Refusal::Short);
    }
    let event = event.ok_or(Refusal::Form)?;
    if event.time < state.clock.0 {
        return Err(Refusal::Clock);
    }
    dispatch::by_kind(state, row, event, body, out)
}

// Where a KEY names its peer and its FQDN, for a caller with a shelf table of its own; any other event asks for nothing there.
pub fn asked(body: &[u8]) -> Asked
    ensures { AsksShelf body.now result }
{
    let Some(event) = event::decode(body) else {
        return Asked::none();
    };
    let KindAt::Key(v) = event.kind else {
        return Asked::none();
    };
    Asked {
        peer: v.peer,
        fqdn: Span {
            start: v.naf.start,
            end: v.naf.end - limits::UA,
        },
    }
}

// What an event does, where a shelf table has said what it says to a KEY.
pub fn step(
    state: &mut State,
    policy: Policy,
    body: &[u8],
    out: &mut [u8],
) -> Result<usize, Refusal>
    ensures { Left state.old (step_of state.old policy (decoded body.now) (length out.old)) out.old state.new result out.new }
{
    let row = policy.row();
    answer(state, row.as_ref(), event::decode(body), body, out)
}

// ---- The entry: one event on a state, with the shelf table lent as rows. Document 01, "Events and numbers on the line" to "What goes back".

// The row that counts for a KEY is looked up, and the server answers by what it says.
pub fn event(state: &mut State, rows: &[Row], body: &[u8], out: &mut [u8]) -> Result<usize, Refusal>
    ensures { Left state.old (event_of state.old rows.now body.now (length out.old)) out.old state.new result out.new }
{
    let event = event::decode(body);
    answer(state, row_for(rows, event, body), event, body, out)
}

// The same by value, for a caller that keeps its state so: the event takes the state, and hands the next one back.
pub fn handed(
    mut state: State,
    rows: &[Row],
    body: &[u8],
    out: &mut [u8],
) -> (State, Result<usize, Refusal>)
    ensures { Left state (event_of state rows.now body.now (length out.old)) out.old result.0 result.1 out.new }
{
    let told = event(&mut state, rows, body, out);
    (state, told)
}
