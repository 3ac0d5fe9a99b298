// What a VECTOR brings, by value: the octets that stand in the body at the places its decoder read. Document 01, "Events and numbers on the
// line" and "Opening, clock, tables".
#![tactic(auto)]

ghost use Rattle.std.specs.Prelude.{◌+◌, ◌≤◌, ◌≡◌, length};
ghost use Rattle.limits.specs.Limits.{BARE, ENTRIES};
ghost use Rattle.line.specs.Text.{between};
ghost use Rattle.settings.specs.Meaning.{entry_means, entries_at, list_of, settings_means};
ghost use Rattle.settings.specs.Placed.{EntryPlaced, EntriesStand, SettingsPlaced};
ghost use Rattle.event.specs.Meaning.{vector_means};
ghost use Rattle.event.specs.Placed.{VectorPlaced};
ghost use Rattle.challenge.specs.Challenge.{ks_of, challenge_of, entry_of, entries_of, given_of};

use event::VectorAt;
use records::{Entry, Lifetime, Settings};
use settings::{EntryAt, SettingsAt};

// RAND, AUTN, XRES with zeros after it and its length, as a run holds it, and Ks: CK, then IK.
#[repr(C)]
#[derive(Clone, Copy)]
pub struct Challenge {
    pub rand: [u8; limits::BARE],
    pub autn: [u8; limits::BARE],
    pub xres: [u8; limits::RES_MOST],
    pub xlen: usize,
    pub ks: [u8; limits::KS],
}

// The octets of a RAND, an AUTN, a CK or an IK.
fn bare(body: &[u8], at: usize) -> [u8; limits::BARE]
    requires { at + BARE ≤ length body.now }
    ensures { result ≡ between body.now at (at + BARE) }
{
    let mut o = [0u8; limits::BARE];
    o.copy_from_slice(&body[at..at + limits::BARE]);
    o
}

// CK, then IK.
fn ks_of(body: &[u8], ck: usize, ik: usize) -> [u8; limits::KS]
    requires { (ck + BARE ≤ length body.now) × (ik + BARE ≤ length body.now) }
    ensures { result ≡ ks_of (between body.now ck (ck + BARE)) (between body.now ik (ik + BARE)) }
{
    let mut ks = [0u8; limits::KS];
    ks[..limits::BARE].copy_from_slice(&body[ck..ck + limits::BARE]);
    ks[limits::BARE..].copy_from_slice(&body[ik..ik + limits::BARE]);
    ks
}

// The challenge, what answers it, and the key.
#[tactic(auto, unfolding(crate::specs::Challenge::challenge_of))]
pub fn challenge_of(body: &[u8], v: VectorAt) -> Challenge
    requires { VectorPlaced body.now v }
    ensures { result ≡ challenge_of (vector_means body.now v) }
{
    let res = v.xres.of(body);
    let mut xres = [0u8; limits::RES_MOST];
    octets::pad(res, &mut xres);
    Challenge {
        rand: bare(body, v.rand),
        autn: bare(body, v.autn),
        xres,
        xlen: res.len(),
        ks: ks_of(body, v.ck, v.ik),
    }
}

// An entry that was read.
fn entry_of(body: &[u8], e: EntryAt) -> Entry
    requires { EntryPlaced body.now e }
    ensures { result ≡ entry_of (entry_means body.now e) }
{
    let name = e.user.of(body);
    let mut flags = [0u8; limits::FLAGS];
    flags.copy_from_slice(&body[e.flags..e.flags + limits::FLAGS]);
    let mut user = [0u8; limits::USER];
    octets::pad(name, &mut user);
    Entry {
        application: e.application,
        group: e.group as u8,
        flags,
        user,
        len: name.len(),
    }
}

// The entries from a place on, and no entries after them. They are put by index: of what an adapter of `iter_mut` lends, no proof knows what is left.
#[tactic(auto, using(crate::proofs::Laws::going))]
fn entries_of(body: &[u8], count: u64, first: usize) -> [Entry; limits::ENTRIES]
    requires count_bound { count ≤ ENTRIES }
    requires entries_stand { EntriesStand body.now count first }
    ensures { result ≡ entries_of (list_of (entries_at count body.now first)) }
{
    let mut entries = [Entry::none(); limits::ENTRIES];
    let mut at = first;
    for i in 0..count as usize {
        let e = settings::read_entry(body, at).unwrap();
        entries[i] = entry_of(body, e);
        at = e.user.end;
    }
    entries
}

// The settings that were given; with nothing given, no settings.
#[tactic(auto, unfolding(crate::specs::Challenge::settings_of, crate::specs::Challenge::given_of))]
pub fn settings_of(body: &[u8], v: SettingsAt) -> Settings
    requires { SettingsPlaced body.now v }
    ensures { result ≡ given_of (settings_means body.now v) }
{
    match v {
        SettingsAt::Given(given) => Settings {
            lifetime: Lifetime(given.lifetime as u32),
            timestamp: given.timestamp,
            entries: entries_of(body, given.count, given.entries),
        },
        _ => Settings::none(),
    }
}
