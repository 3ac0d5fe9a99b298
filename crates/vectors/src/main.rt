// Runs the published vectors of SHA-256 (NIST) and of HMAC with SHA-256 (RFC 4231), and RFC 3548's examples of base64, and says of each how many
// were run and how many came out equal. data/README.md says where the files come from and how they are laid out.
#![tactic(auto)]

ghost use Rattle.std.specs.Prelude.{◌≡◌, ◌+◌, ◌*◌, ◌^◌, ◌<◌, ◌≤◌, ◌↔◌, if◌then◌else◌, length, IfOk, IfSome, SomeIff, IsTrue};
ghost use Rattle.btid.specs.Base64.{base64};
ghost use Rattle.sha256.specs.Digest.{LIMIT, sha256_of};
ghost use Rattle.hmac.specs.Hmac.{hmac_of};

use sha256::DIGEST;
use std::fs::File;
use std::io::{Eprint, Print, Read};
use std::rt::Files;
use std::{fmt, io};

// A field's first line: two numbers of so many digits, a space between them, and the end of the line.
const DIGITS: usize = 8;

const HEAD: usize = 2 * DIGITS + 2;

// Room for the longest line of hex.
const LINE: usize = 65536;

// Room for the longest key.
const KEY: usize = 256;

// The most vectors that are run one after another.
const VECTORS: u64 = 1000000;

// RFC 3548, section 7: octets, and their base64.
const EXAMPLES: [(&[u8], &[u8]); 3] = [
    (b"\x14\xfb\x9c\x03\xd9\x7e", b"FPucA9l+"),
    (b"\x14\xfb\x9c\x03\xd9", b"FPucA9k="),
    (b"\x14\xfb\x9c\x03", b"FPucAw=="),
];

// The value of a hex digit. Anything else counts as 0, and so do capitals, which `char::to_digit` would read.
fn digit(octet: u8) -> u8
    ensures { result < 16 }
{
    match octet {
        b'0'..=b'9' => octet - b'0',
        b'a'..=b'f' => octet - b'a' + 10,
        _ => 0,
    }
}

// The number of at most eight decimal digits.
fn number(digits: &[u8]) -> usize
    requires { length digits.now ≤ DIGITS }
    ensures { result < 2 * 10 ^ DIGITS }
{
    let mut number = 0;
    for octet in digits {
        number = number * 10 + usize::from(digit(*octet));
    }
    number
}

// The octets that a line of hex spells.
fn unhex(line: &[u8], out: &mut [u8]) {
    for (octet, pair) in out.iter_mut().zip(line.chunks_exact(2)) {
        *octet = digit(pair[0]) * 16 + digit(pair[1]);
    }
}

// Fills buf, or says that the file ends before.
fn fill(file: &mut File, buf: &mut [u8]) -> io::Result<bool> {
    match file.read_exact(buf) {
        Ok(()) => Ok(true),
        Err(error) if error.kind() == io::ErrorKind::UnexpectedEof => Ok(false),
        Err(error) => Err(error),
    }
}

// The fields of a file.
#[derive(Drop)]
struct Fields {
    file: File,
}

impl Fields {
    // Where the file cannot be opened, that is said.
    fn open<R: Files<File = File> + Eprint>(rt: &R, name: &str) -> io::Result<Self> {
        match File::open(rt, name) {
            Ok(file) => Ok(Self { file }),
            Err(error) => {
                eprintln!(rt; "{name}: {error}")?;
                Err(error)
            }
        }
    }

    // The octets of the next field, in out, by way of a line; or nothing, where no whole field follows, or none that there is room for.
    fn read<'a>(&mut self, line: &mut [u8], out: &'a mut [u8]) -> io::Result<Option<&'a [u8]>>
        ensures { IfOk result (λ field. IfSome field (λ octets. length octets.now ≤ length out.old)) }
    {
        let mut head = [0; HEAD];
        if !fill(&mut self.file, &mut head)? {
            return Ok(None);
        }
        let times = number(&head[..DIGITS]);
        let count = number(&head[DIGITS + 1..HEAD - 1]);
        let Some(line) = line.get_mut(..2 * count + 1) else {
            return Ok(None);
        };
        if !fill(&mut self.file, line)? {
            return Ok(None);
        }
        let end = times * count;
        if out.len() < count.max(end) {
            return Ok(None);
        }
        unhex(line, &mut out[..count]);
        // The same octets, as often as is said.
        for at in count..end {
            out[at] = out[at - count];
        }
        Ok(Some(&out[..end]))
    }
}

// The digest of a message, where it is not too long.
fn digest(message: &[u8]) -> Option<[u8; DIGEST]>
    ensures { SomeIff result (length message.now ≤ LIMIT) (sha256_of message.now) }
{
    let mut out = [0; DIGEST];
    sha256::sha256(message, &mut out).is_ok().then_some(out)
}

// The code of a text under a key, where neither is too long.
fn code(key: &[u8], text: &[u8]) -> Option<[u8; DIGEST]>
    ensures { SomeIff result ((length key.now ≤ LIMIT) × (length text.now ≤ LIMIT)) (hmac_of key.now text.now) }
{
    let mut out = [0; DIGEST];
    hmac::hmac(key, text, &mut out).is_ok().then_some(out)
}

// The Monte Carlo test: from a seed, a thousand times the digest of the last three digests.
fn thousandth(seed: [u8; DIGEST]) -> [u8; DIGEST] {
    let mut last = [seed; 3];
    for _ in 0..1000 {
        let next = digest(last.as_flattened()).unwrap();
        last = [last[1], last[2], next];
    }
    last[2]
}

// Why no vector was run.
#[derive(Clone, Copy)]
enum Stop {
    // There are no more.
    End,

    // One breaks off, or has a field that there is no room for.
    Broken,

    // The file cannot be read.
    Unread(io::Error),
}

impl From<io::Error> for Stop {
    fn from(error: io::Error) -> Self {
        Stop::Unread(error)
    }
}

// A vector of SHA-256: a message, and its digest. The three kinds of vectors have functions of their own, since they read one, two and three fields.
fn sha256_vector(fields: &mut Fields, line: &mut [u8], room: &mut [u8]) -> Result<bool, Stop> {
    let message = fields.read(line, room)?.ok_or(Stop::End)?;
    let mut want = [0; DIGEST];
    fields.read(line, &mut want)?.ok_or(Stop::Broken)?;
    Ok(digest(message) == Some(want))
}

// A vector of the Monte Carlo test: the digest a thousand on from the one before.
fn monte_vector(
    fields: &mut Fields,
    line: &mut [u8],
    seed: &mut [u8; DIGEST],
) -> Result<bool, Stop> {
    let mut want = [0; DIGEST];
    fields.read(line, &mut want)?.ok_or(Stop::End)?;
    *seed = thousandth(*seed);
    Ok(*seed == want)
}

// A vector of HMAC: a key, a text, and the code, or its first octets, of which there are 16 at least.
fn hmac_vector(fields: &mut Fields, line: &mut [u8], room: &mut [u8]) -> Result<bool, Stop> {
    let mut key_room = [0; KEY];
    let key = fields.read(line, &mut key_room)?.ok_or(Stop::End)?;
    let text = fields.read(line, room)?.ok_or(Stop::Broken)?;
    let mut want_room = [0; DIGEST];
    let want = fields.read(line, &mut want_room)?.ok_or(Stop::Broken)?;
    Ok(16 <= want.len() && code(key, text).is_some_and(|code| code.starts_with(want)))
}

// Whether base64 of at most six octets is that text.
fn is_base64(octets: &[u8], text: &[u8]) -> bool
    ensures { IsTrue result ↔ ((length octets.now ≤ 6) × (base64 octets.now ≡ text.now)) }
{
    if 6 < octets.len() {
        return false;
    }
    let mut out = [0; 8];
    let count = btid::put_base64(octets, &mut out);
    &out[..count] == text
}

// How many vectors were run, and how many came out equal.
#[derive(Drop)]
struct Tally {
    run: u64,
    equal: u64,
    ghost within: { equal ≤ run },
}

impl Tally {
    fn new() -> Self
        ensures { result.run ≡ 0 }
    {
        Self { run: 0, equal: 0 }
    }

    // One vector more; one that differs is named on a line of its own.
    fn count(&mut self, rt: &impl Print, is_equal: bool) -> io::Result<()>
        requires { self.old.run < VECTORS }
        ensures run { self.new.run ≡ self.old.run + 1 }
        ensures equal { self.new.equal ≡ (if is_equal then self.old.equal + 1 else self.old.equal) }
    {
        self.run += 1;
        if is_equal {
            self.equal += 1;
            return Ok(());
        }
        println!(rt; "differs: {}", self.run)
    }
}

impl fmt::Display for Tally {
    fn fmt<W: fmt::Write>(&self, f: &mut fmt::Formatter<W>) -> fmt::Result {
        write!(f, "{} run, {} equal", self.run, self.equal)
    }
}

// Runs one vector after another, and reports them. One that breaks off counts as one that differs.
fn run_all<F: FnMut() -> Result<bool, Stop>>(
    rt: &impl Print,
    name: &str,
    mut vector: F,
) -> io::Result<()>
    requires { F.IsAlwaysCallable vector }
{
    let mut tally = Tally::new();
    for _turn in 0..VECTORS {
        match vector() {
            Ok(is_equal) => tally.count(rt, is_equal)?,
            Err(Stop::End) => break,
            Err(Stop::Broken) => {
                tally.count(rt, false)?;
                break;
            }
            Err(Stop::Unread(error)) => return Err(error),
        }
    }
    println!(rt; "{name}: {tally}")
}

fn main(rt: HostRuntime) -> io::Result<()> {
    // Room for a line of any file, and for the longest message.
    let mut line = [0; LINE];
    let mut room = [0; sha256::LIMIT];
    for name in ["SHA256ShortMsg", "SHA256LongMsg", "SHA256Examples"] {
        let mut fields = Fields::open(&rt, name)?;
        run_all(
            &rt,
            name,
            || sha256_vector(&mut fields, &mut line, &mut room),
        )?;
    }
    // Each file is closed before the next is opened.
    {
        let mut seed = [0; DIGEST];
        let mut fields = Fields::open(&rt, "SHA256Monte")?;
        fields.read(&mut line, &mut seed)?;
        run_all(
            &rt,
            "SHA256Monte",
            || monte_vector(&mut fields, &mut line, &mut seed),
        )?;
    }
    let mut fields = Fields::open(&rt, "RFC4231")?;
    run_all(
        &rt,
        "RFC4231",
        || hmac_vector(&mut fields, &mut line, &mut room),
    )?;
    let mut examples = EXAMPLES.iter();
    run_all(&rt, "RFC3548", || {
        let (octets, text) = examples.next().ok_or(Stop::End)?;
        Ok(is_base64(octets, text))
    })
}
