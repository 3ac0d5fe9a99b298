// The opening: document 01, "Opening, clock, tables". Values out of range are NOT OPEN, and leave the closed state.
#![tactic(auto)]

ghost use Rattle.std.specs.Prelude.{◌≡◌};
ghost use Rattle.rules.specs.Opening.{closed, open_rule};
ghost use Rattle.opening.specs.Opening.{Opened, opening_of};

use flow::Refusal;
use names::Name;
use records::{Lifetime, Moment, Run, Session};
use tables::{Runs, Sessions, State};

// The state on which every event is NOT OPEN.
pub fn closed() -> State
    ensures { result ≡ closed }
{
    State {
        ready: false,
        domain: Name::none(),
        restart: 0,
        lifetime: Lifetime(0),
        clock: Moment(0),
        last: 0,
        runs: Runs {
            rows: [Run::none(); limits::RUNS],
        },
        sessions: Sessions {
            rows: [Session::none(); limits::SESSIONS],
        },
    }
}

// Opens a server on a state, whatever was there. Where it refuses, it leaves the closed state.
pub fn open(state: &mut State, domain: &[u8], restart: u64, lifetime: u64) -> Result<(), Refusal>
    ensures { Opened (opening_of (open_rule domain.now restart lifetime)) state.new result }
{
    *state = closed();
    if domain.is_empty() || limits::NAME < domain.len() || limits::WORD < restart {
        return Err(Refusal::NotOpen);
    }
    if lifetime < limits::LIFETIME_LEAST || limits::LIFETIME_MOST < lifetime {
        return Err(Refusal::NotOpen);
    }
    state.ready = true;
    state.domain = Name::of(domain);
    state.restart = restart;
    state.lifetime = Lifetime(lifetime as u32);
    Ok(())
}
