// From an event to its rule. Document 01, "What each event does".
#![tactic(auto)]

ghost use Rattle.std.specs.Prelude.{◌≤◌, ◌≡◌, option_copied, length};
ghost use Rattle.limits.specs.Limits.{TIME, ROOM};
ghost use Rattle.event.specs.Meaning.{act_means, run_means, kind_means};
ghost use Rattle.event.specs.Placed.{ActPlaced, RunPlaced, EventPlaced};
ghost use Rattle.settings.specs.Meaning.{settings_means};
ghost use Rattle.settings.specs.Placed.{SettingsPlaced};
ghost use Rattle.shelves.specs.Shelf.{policy_as};
ghost use Rattle.tables.specs.State.{run_at};
ghost use Rattle.outcome.specs.Outcome.{Left};
ghost use Rattle.vector.specs.Turns.{brought_of};
ghost use Rattle.rules.specs.Server.{act_rule, run_rule, kind_rule};

use event::{ActAt, EventAt, KindAt, RunAt};
use flow::Refusal;
use records::Settings;
use settings::SettingsAt;
use shelves::Row;
use tables::State;

// The settings that a VECTOR brings: none where they are to be as before.
fn brought(body: &[u8], settings: SettingsAt) -> Option<Settings>
    requires { SettingsPlaced body.now settings }
    ensures { result ≡ brought_of (settings_means body.now settings) }
{
    match settings {
        SettingsAt::AsBefore => None,
        other => Some(challenge::settings_of(body, other)),
    }
}

// What comes for a run of that number, which is open at place i.
fn act(
    state: &mut State,
    time: u64,
    number: u64,
    i: usize,
    body: &[u8],
    act: ActAt,
    out: &mut [u8],
) -> Result<usize, Refusal>
    requires { ActPlaced body.now act × (time ≤ TIME) × (ROOM ≤ length out.old) }
    ensures { Left state.old (act_rule state.old time number i (run_at state.old i) (act_means body.now act)) out.old state.new result out.new }
{
    match act {
        ActAt::Vector(v) => {
            let impi = v.impi.of(body);
            let challenge = challenge::challenge_of(body, v);
            let brought = brought(body, v.settings);
            vector::vector(state, time, number, i, impi, &challenge, brought, out)
        }
        ActAt::Response(v) => response::response(state, time, i, v.res.of(body), out),
        ActAt::Abort => response::abort(state, time, i, out),
    }
}

// Kinds 2 to 4: the run that is named is one of this opening, and open.
fn on_run(
    state: &mut State,
    time: u64,
    body: &[u8],
    v: RunAt,
    out: &mut [u8],
) -> Result<usize, Refusal>
    requires { RunPlaced body.now v × (time ≤ TIME) × (ROOM ≤ length out.old) }
    ensures { Left state.old (run_rule state.old time (run_means body.now v)) out.old state.new result out.new }
{
    if v.restart != state.restart {
        return Err(Refusal::Stale);
    }
    let place = state.runs.open(v.run, time).ok_or(Refusal::Stale)?;
    act(state, time, v.run, place, body, v.act, out)
}

// The rule of an event's kind, where the shelf table has this row for a KEY, or none.
pub fn by_kind(
    state: &mut State,
    row: Option<&Row>,
    event: EventAt,
    body: &[u8],
    out: &mut [u8],
) -> Result<usize, Refusal>
    requires { EventPlaced body.now event × (ROOM ≤ length out.old) }
    ensures { Left state.old (kind_rule state.old (policy_as (option_copied row.entry)) event.time (kind_means body.now event.kind)) out.old state.new result out.new }
{
    match event.kind {
        KindAt::Start(v) => start::start(state, event.time, v.impi.of(body), out),
        KindAt::OnRun(v) => on_run(state, event.time, body, v, out),
        KindAt::Key(v) => {
            let btid = v.btid.of(body);
            let naf = v.naf.of(body);
            key::key(state, row, event.time, btid, naf, v.application, out)
        }
    }
}
