// SHA-256's rounds: what a block of 64 octets makes of a hash value. FIPS 180-4, 4 and 6.2.2.
#![tactic(auto)]

ghost use Rattle.std.specs.Prelude.{◌≡◌, ◌+◌, ◌*◌, ◌<◌, ◌≤◌, length};
ghost use Rattle.blocks.specs.Functions.{Ch, Maj};
ghost use Rattle.blocks.specs.Schedule.{WORDS, back};
ghost use Rattle.blocks.specs.Blocks.{BLOCK, blocks};
ghost use Rattle.sha256_block.specs.declared.Hash.{Hash};
ghost use Rattle.sha256_block.specs.Words.{Σ0, Σ1, σ0, σ1};
ghost use Rattle.sha256_block.specs.Compress.{ROUNDS as ROUND_COUNT, mixed, W, round_of, rounds, sum_of, compress_of};

// The rounds, and the words of the message schedule.
const ROUNDS: usize = 64;

// So many rounds, and so many words of the schedule, go in one turn: one by one the code takes a quarter more time.
const TURN: usize = 8;

// The round constants, FIPS 180-4 4.2.2.
const K: [u32; ROUNDS] = [
    0x428a2f98, 0x71374491, 0xb5c0fbcf, 0xe9b5dba5, 0x3956c25b, 0x59f111f1, 0x923f82a4, 0xab1c5ed5,
    0xd807aa98, 0x12835b01, 0x243185be, 0x550c7dc3, 0x72be5d74, 0x80deb1fe, 0x9bdc06a7, 0xc19bf174,
    0xe49b69c1, 0xefbe4786, 0x0fc19dc6, 0x240ca1cc, 0x2de92c6f, 0x4a7484aa, 0x5cb0a9dc, 0x76f988da,
    0x983e5152, 0xa831c66d, 0xb00327c8, 0xbf597fc7, 0xc6e00bf3, 0xd5a79147, 0x06ca6351, 0x14292967,
    0x27b70a85, 0x2e1b2138, 0x4d2c6dfc, 0x53380d13, 0x650a7354, 0x766a0abb, 0x81c2c92e, 0x92722c85,
    0xa2bfe8a1, 0xa81a664b, 0xc24b8b70, 0xc76c51a3, 0xd192e819, 0xd6990624, 0xf40e3585, 0x106aa070,
    0x19a4c116, 0x1e376c08, 0x2748774c, 0x34b0bcb5, 0x391c0cb3, 0x4ed8aa4a, 0x5b9cca4f, 0x682e6ff3,
    0x748f82ee, 0x78a5636f, 0x84c87814, 0x8cc70208, 0x90befffa, 0xa4506ceb, 0xbef9a3f7, 0xc67178f2,
];

// The eight words of a hash value, and the eight working variables.
#[derive(Clone, Copy)]
pub struct Hash {
    pub a: u32,
    pub b: u32,
    pub c: u32,
    pub d: u32,
    pub e: u32,
    pub f: u32,
    pub g: u32,
    pub h: u32,
}

// One operation less than the standard's form.
fn ch(x: u32, y: u32, z: u32) -> u32
    ensures { result ≡ Ch x y z }
{
    z ^ (x & (y ^ z))
}

fn maj(x: u32, y: u32, z: u32) -> u32
    ensures { result ≡ Maj x y z }
{
    (x & y) ^ (x & z) ^ (y & z)
}

fn big0(x: u32) -> u32
    ensures { result ≡ Σ0 x }
{
    x.rotate_right(2) ^ x.rotate_right(13) ^ x.rotate_right(22)
}

fn big1(x: u32) -> u32
    ensures { result ≡ Σ1 x }
{
    x.rotate_right(6) ^ x.rotate_right(11) ^ x.rotate_right(25)
}

fn small0(x: u32) -> u32
    ensures { result ≡ σ0 x }
{
    x.rotate_right(7) ^ x.rotate_right(18) ^ (x >> 3)
}

fn small1(x: u32) -> u32
    ensures { result ≡ σ1 x }
{
    x.rotate_right(17) ^ x.rotate_right(19) ^ (x >> 10)
}

// The word t of the message schedule, from those before it.
fn next(w: &[u32; ROUNDS], t: usize) -> u32
    requires { (WORDS ≤ t) × (t < ROUND_COUNT) }
    ensures { result ≡ mixed (back w.now t) }
{
    small1(w[t - 2])
        .wrapping_add(w[t - 7])
        .wrapping_add(small0(w[t - 15]))
        .wrapping_add(w[t - 16])
}

// The message schedule of a block.
fn schedule(b: &[u8], w: &mut [u32; ROUNDS])
    requires { length b.now ≡ BLOCK }
    ensures { w.new ≡ W b.now }
{
    for t in 0..blocks::WORDS {
        w[t] = blocks::word(b, t);
    }
    for from in (blocks::WORDS..ROUNDS).step_by(TURN) {
        for t in from..from + TURN {
            w[t] = next(w, t);
        }
    }
}

fn round(s: Hash, k: u32, w: u32) -> Hash
    ensures { result ≡ round_of s k w }
{
    let t1 = s
        .h
        .wrapping_add(big1(s.e))
        .wrapping_add(ch(s.e, s.f, s.g))
        .wrapping_add(k)
        .wrapping_add(w);
    let t2 = big0(s.a).wrapping_add(maj(s.a, s.b, s.c));
    Hash {
        a: t1.wrapping_add(t2),
        b: s.a,
        c: s.b,
        d: s.c,
        e: s.d.wrapping_add(t1),
        f: s.e,
        g: s.f,
        h: s.g,
    }
}

// All rounds over the schedule w, from the working variables x.
fn rounds(x: Hash, w: &[u32; ROUNDS]) -> Hash
    ensures { result ≡ rounds w.now x ROUND_COUNT }
{
    let mut s = x;
    // Borrowed, since a const array that is named by itself is copied at each use.
    let k = &K;
    for from in (0..ROUNDS).step_by(TURN) {
        for t in from..from + TURN {
            s = round(s, k[t], w[t]);
        }
    }
    s
}

fn sum(x: Hash, y: Hash) -> Hash
    ensures { result ≡ sum_of x y }
{
    Hash {
        a: x.a.wrapping_add(y.a),
        b: x.b.wrapping_add(y.b),
        c: x.c.wrapping_add(y.c),
        d: x.d.wrapping_add(y.d),
        e: x.e.wrapping_add(y.e),
        f: x.f.wrapping_add(y.f),
        g: x.g.wrapping_add(y.g),
        h: x.h.wrapping_add(y.h),
    }
}

// The hash value after the block b, from the hash value x before it.
pub fn compress(x: Hash, b: &[u8]) -> Hash
    requires { length b.now ≡ BLOCK }
    ensures { result ≡ compress_of x b.now }
{
    let mut w = [0; ROUNDS];
    schedule(b, &mut w);
    sum(x, rounds(x, &w))
}

// The hash value after the first `count` blocks of m.
pub fn absorb(x: Hash, m: &[u8], count: usize) -> Hash
    requires { BLOCK * count ≤ length m.now }
    ensures { result ≡ blocks compress_of x m.now count }
{
    let mut s = x;
    for b in m.chunks_exact(blocks::BLOCK).take(count) {
        s = compress(s, b);
    }
    s
}
