// Every limit of document 01, once: for the code here, and for the definitions in specs/. A sum of limits is written as one.
#![tactic(auto)]

// A number that is read has at most so many groups of seven bits, and any number of 64 bits at most so many.
pub const GROUPS: usize = 6;

pub const WRITTEN: usize = 10;

// The highest time and timestamp.
pub const TIME: u64 = 999999999999;

// The highest restart, run and application.
pub const WORD: u64 = 4294967295;

// The longest IMPI, peer, FQDN and BSF domain.
pub const NAME: usize = 64;

// The octets of a Ua security protocol identifier; a NAF_Id is an FQDN and then these.
pub const UA: usize = 5;

// The shortest and the longest XRES and RES.
pub const RES_LEAST: usize = 4;

pub const RES_MOST: usize = 16;

// The octets of RAND, AUTN, CK and IK each.
pub const BARE: usize = 16;

// The octets of Ks, which is CK and then IK, and those of a key.
pub const KS: usize = BARE + BARE;

pub const KEY: usize = 32;

// The letters of a RAND in base64, four for every three octets begun; and the longest B-TID: these letters, "@" and a BSF domain.
pub const LETTERS: usize = (BARE + 2) / 3 * 4;

pub const BTID: usize = LETTERS + 1 + NAME;

// The shortest and the longest lifetime, in seconds.
pub const LIFETIME_LEAST: u64 = 60;

pub const LIFETIME_MOST: u64 = 604800;

// Settings: the most entries; of an entry the highest group, the octets of its flags, the longest user name.
pub const ENTRIES: usize = 4;

pub const GROUP: u64 = 255;

pub const FLAGS: usize = 4;

pub const USER: usize = 32;

// At most so many open runs, and so many live sessions.
pub const RUNS: usize = 32;

pub const SESSIONS: usize = 64;

// A run lapses so many seconds after its START.
pub const LAPSE: u64 = 30;

// A buffer of fewer octets is refused with 2.
pub const ROOM: usize = 160;

// The event program: the most rows, and the longest body of an event.
pub const ROWS: usize = 16;

pub const BODY: usize = 512;

// The most decimal digits of a number of 64 bits; and the longest line: place, blank, number, blank, two digits for each octet of an answer or
// "-", newline.
pub const DIGITS: usize = 20;

pub const LINE: usize = DIGITS + 1 + (DIGITS + 1) + (1 + 1) + 2 * ROOM;
