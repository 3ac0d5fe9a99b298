// The entry points for C and Rust, each under its own name with `pr_` in front. A slice is two parameters: a pointer and a count.
// The state is the caller's memory, and is changed there.
#![tactic(auto)]

ghost use Rattle.std.specs.Prelude.{◌≡◌, length};
ghost use Rattle.flow.specs.Reply.{Met};
ghost use Rattle.sha256.specs.Digest.{sha256_rule};
ghost use Rattle.hmac.specs.Hmac.{hmac_rule};
ghost use Rattle.kdf.specs.Encode.{encode_rule};
ghost use Rattle.outcome.specs.Outcome.{Met as EventMet};
ghost use Rattle.rules.specs.Opening.{open_rule};
ghost use Rattle.rules.specs.History.{event_of};
ghost use Rattle.opening.specs.Opening.{opening_of};
ghost use Rattle.exports.specs.Exports.{opening, outcome, number_of, Progressed};

use batch::Why;
use flow::{Refusal, Reply};
use shelves::{Row, Shelf};
use tables::State;

// How far a batch went, for C: why it ended, as a number, the octets of its lines, where in the input the first event that is left starts, and its place.
#[repr(C)]
#[derive(Clone, Copy)]
pub struct Progress {
    pub no: u32,
    pub len: usize,
    pub at: usize,
    pub place: u64,
}

#[unsafe(no_mangle)]
pub extern "C" fn pr_sha256(m: &[u8], out: &mut [u8]) -> Reply
    ensures { Met (sha256_rule m.now (length out.old)) out.old result out.new }
{
    Reply::from(sha256::sha256(m, out))
}

#[unsafe(no_mangle)]
pub extern "C" fn pr_hmac(key: &[u8], text: &[u8], out: &mut [u8]) -> Reply
    ensures { Met (hmac_rule key.now text.now (length out.old)) out.old result out.new }
{
    Reply::from(hmac::hmac(key, text, out))
}

#[unsafe(no_mangle)]
pub extern "C" fn pr_kdf(fc: u8, run: &[u8], lens: &[usize], out: &mut [u8]) -> Reply
    ensures { Met (encode_rule fc run.now lens.now (length out.old)) out.old result out.new }
{
    Reply::from(kdf::encode(fc, run, lens, out))
}

#[unsafe(no_mangle)]
pub extern "C" fn pr_open(state: &mut State, domain: &[u8], restart: u64, lifetime: u64) -> u32
    ensures { opening state.new result ≡ opening_of (open_rule domain.now restart lifetime) }
{
    match opening::open(state, domain, restart, lifetime) {
        Ok(()) => 0,
        Err(refusal) => refusal.into(),
    }
}

#[unsafe(no_mangle)]
pub extern "C" fn pr_event<'s, 'a, 'b>(
    state: &'s mut State,
    rows: &'a [Row],
    body: &'a [u8],
    out: &'b mut [u8],
) -> Reply
    ensures { EventMet state.old (event_of state.old rows.now body.now (length out.old)) out.old (outcome state.new result) out.new }
{
    Reply::from(server::event(state, rows, body, out))
}

// Why a batch ended, as a number. No `From`: it would stand in crate batch, which has no such numbers.
fn number(why: Why) -> u32
    ensures { result ≡ number_of why }
{
    match why {
        Why::More => 0,
        Why::Full => Refusal::Short.into(),
        Why::Bad => Refusal::Form.into(),
    }
}

// The events of an input from its front on. A first place is refused where the places of its events could pass 64 bits.
#[unsafe(no_mangle)]
pub extern "C" fn pr_serve(
    state: &mut State,
    shelf: Shelf,
    first: u64,
    input: &[u8],
    out: &mut [u8],
) -> Progress
    ensures { Progressed state.old shelf first input.now out.old state.new result out.new }
{
    if u64::MAX - (input.len() as u64) < first {
        return Progress {
            no: Refusal::Form.into(),
            len: 0,
            at: 0,
            place: first,
        };
    }
    let batch = batch::serve(state, &shelf, input, 0, first, out);
    Progress {
        no: number(batch.why),
        len: batch.len,
        at: batch.at,
        place: batch.place,
    }
}
