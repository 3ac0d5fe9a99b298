// What the event program reads, the opening part and the events, each after its body length, and the line that it prints for each event. Document 01,
// "The event program".
// The input may still be arriving, so each reader tells what is not whole yet from what no further octet can mend.
#![tactic(auto)]

ghost use Rattle.std.specs.Prelude.{◌≡◌, ◌+◌, ◌*◌, ◌≤◌, ◌<◌, ◌^◌, length};
ghost use Rattle.flow.specs.Front.{Wrote, Put};
ghost use Rattle.program.specs.Cut.{cut_in, cut_number, cut_text, stopped, number_in, text_in};
ghost use Rattle.program.specs.OpeningPart.{row_at, rows_at, opening_part_of};
ghost use Rattle.program.specs.Rows.{row_of, placed, shelf_of};
ghost use Rattle.program.specs.Frame.{frame_at};
ghost use Rattle.program.specs.Printed.{digit, decimal_in, decimal, pair, hex, shown, line_of, line_room};

use line::Span;
use names::Name;
use shelves::{Row, Shelf};

// Why nothing whole stands at a place: more input may mend it, or no further octet can.
#[derive(Clone, Copy)]
pub enum Stop {
    More,
    Bad,
}

// The opening part: its domain, its numbers, where its first row starts, and where it ends.
#[derive(Clone, Copy)]
pub struct OpeningPart {
    pub domain: Span,
    pub restart: u64,
    pub lifetime: u64,
    pub rows: usize,
    pub at: usize,
    pub end: usize,
}

// A row where it stands: its two names, what it says, and the place after it.
#[derive(Clone, Copy)]
pub struct RowAt {
    pub peer: Span,
    pub fqdn: Span,
    pub identity: bool,
    pub group: u8,
    pub required: u32,
    pub end: usize,
}

// A row as the shelf holds it, and the place after it.
#[derive(Clone, Copy)]
pub struct Placed {
    pub row: Row,
    pub end: usize,
}

// Whether the input ends before a number of at most k octets does. Octet by octet, as `line` reads one, and as the definition has it.
#[tactic(auto, unfolding(crate::specs::Cut::cut_in, flow::specs::Choice::pick))]
fn cut_in(s: &[u8], at: usize, k: usize) -> bool
    ensures { result ≡ cut_in k s.now at }
{
    if k == 0 {
        return false;
    }
    if s.len() <= at {
        return true;
    }
    if s[at] < 128 {
        return false;
    }
    cut_in(s, at + 1, k - 1)
}

// Whether the input ends within a number.
fn cut_number(s: &[u8], at: usize) -> bool
    ensures { result ≡ cut_number s.now at }
{
    cut_in(s, at, limits::GROUPS)
}

// Whether the input ends within a text of lo to hi octets.
#[tactic(auto, unfolding(line::specs::Number::with_num, line::specs::Text::with_span, flow::specs::Choice::pick))]
fn cut_text(s: &[u8], at: usize, lo: usize, hi: usize) -> bool
    ensures { result ≡ cut_text s.now at lo hi }
{
    let Some((n, start)) = line::number(s, at, hi as u64) else {
        return cut_number(s, at);
    };
    lo as u64 <= n && line::octets(s, start, n as usize).is_none()
}

// Why a field is not whole.
#[tactic(auto, unfolding(flow::specs::Choice::pick))]
fn stopped(cut: bool) -> Stop
    ensures { result ≡ stopped cut }
{
    if cut { Stop::More } else { Stop::Bad }
}

// A number of at most max, and the place after it; or why there is none.
#[tactic(auto, unfolding(line::specs::Number::with_num))]
fn number(s: &[u8], at: usize, max: u64) -> Result<(u64, usize), Stop>
    ensures { result ≡ number_in s.now at max }
{
    line::number(s, at, max).ok_or_else(|| stopped(cut_number(s, at)))
}

// A text of lo to hi octets, or why there is none.
#[tactic(auto, unfolding(line::specs::Text::with_span))]
fn text(s: &[u8], at: usize, lo: usize, hi: usize) -> Result<Span, Stop>
    ensures { result ≡ text_in s.now at lo hi }
{
    line::text(s, at, lo, hi).ok_or_else(|| stopped(cut_text(s, at, lo, hi)))
}

// A row: peer text, FQDN text, identity octet 0 or 1, group, required application.
#[tactic(auto, unfolding(crate::specs::Cut::with_read, line::specs::Number::with_num, flow::specs::Choice::pick))]
fn read_row(s: &[u8], at: usize) -> Result<RowAt, Stop>
    ensures { result ≡ row_at s.now at }
{
    let peer = text(s, at, 1, limits::NAME)?;
    let fqdn = text(s, peer.end, 1, limits::NAME)?;
    if s.len() <= fqdn.end {
        return Err(Stop::More);
    }
    let identity = s[fqdn.end];
    if 1 < identity {
        return Err(Stop::Bad);
    }
    let (group, a) = number(s, fqdn.end + 1, limits::GROUP)?;
    let (required, end) = number(s, a, limits::WORD)?;
    Ok(RowAt {
        peer,
        fqdn,
        identity: identity == 1,
        group: group as u8,
        required: required as u32,
        end,
    })
}

// n rows, one after another: the place after them.
#[tactic(auto, unfolding(crate::specs::Cut::with_read, crate::specs::OpeningPart::rows_at))]
fn read_rows(s: &[u8], at: usize, n: usize) -> Result<usize, Stop>
    ensures { result ≡ rows_at n s.now at }
{
    if n == 0 {
        return Ok(at);
    }
    let row = read_row(s, at)?;
    read_rows(s, row.end, n - 1)
}

// The opening part: domain text, restart, default lifetime, row count, rows.
#[tactic(auto, unfolding(crate::specs::Cut::with_read, crate::specs::OpeningPart::opening_part_of, flow::specs::Choice::pick))]
pub fn read_opening(s: &[u8]) -> Result<OpeningPart, Stop>
    ensures { result ≡ opening_part_of s.now }
{
    let domain = text(s, 0, 1, limits::NAME)?;
    let (restart, a) = number(s, domain.end, limits::WORD)?;
    let (lifetime, b) = number(s, a, limits::LIFETIME_MOST)?;
    if lifetime < limits::LIFETIME_LEAST {
        return Err(Stop::Bad);
    }
    let (rows, at) = number(s, b, limits::ROWS as u64)?;
    let end = read_rows(s, at, rows as usize)?;
    Ok(OpeningPart {
        domain,
        restart,
        lifetime,
        rows: rows as usize,
        at,
        end,
    })
}

// A row as the shelf holds it: its names by value.
fn row_of(s: &[u8], row: RowAt) -> Row
    ensures { result ≡ row_of s.now row }
{
    Row {
        peer: Name::of(shelves::part(s, row.peer)),
        fqdn: Name::of(shelves::part(s, row.fqdn)),
        identity: row.identity,
        group: row.group,
        required: row.required,
    }
}

// The row at a place, as the shelf holds it, and the place after it; where no row stands, one that matches nothing.
fn place(s: &[u8], at: usize) -> Placed
    ensures { result ≡ placed s.now at }
{
    match read_row(s, at) {
        Ok(row) => Placed {
            row: row_of(s, row),
            end: row.end,
        },
        Err(_) => Placed {
            row: Row::none(),
            end: at,
        },
    }
}

// The shelf of the rows that stand at a place. They are put by index: of what `iter_mut().take(count)` lends, no proof knows what is left there.
pub fn shelf_of(s: &[u8], count: usize, at: usize) -> Shelf
    ensures { result ≡ shelf_of s.now count at }
{
    let mut rows = [Row::none(); limits::ROWS];
    let mut next = at;
    for i in 0..count.min(limits::ROWS) {
        let placed = place(s, next);
        rows[i] = placed.row;
        next = placed.end;
    }
    Shelf { rows, count }
}

// An event: its body length, and then its body.
#[tactic(auto, unfolding(crate::specs::Frame::frame_at))]
pub fn read_frame(s: &[u8], at: usize) -> Result<Span, Stop>
    ensures { result ≡ frame_at s.now at }
{
    text(s, at, 1, limits::BODY)
}

// ---- What the event program prints: a line for each event. Document 01, "The event program".

const BLANK: u8 = b' ';

const DASH: u8 = b'-';

const NEWLINE: u8 = b'\n';

// The digit of a number below 16.
#[tactic(auto, unfolding(flow::specs::Choice::pick))]
fn digit(d: u8) -> u8
    requires { d < 16 }
    ensures { result ≡ digit d }
{
    if d < 10 {
        return 48 + d;
    }
    87 + d
}

// Writes a number in decimal at a place of the buffer, k digits at most before the last. Returns the place after it, as all of the writers do.
fn put_digits_at(out: &mut [u8], at: usize, k: usize, n: u64) -> usize
    requires n_bound { n < 10 ^ (k + 1) }
    requires n_in_bounds { at + length (decimal_in k n) ≤ length out.old }
    ensures { Put (decimal_in k n) at result out.old out.new }
{
    if n < 10 {
        return line::put_octet_at(out, at, digit(n as u8));
    }
    let next = put_digits_at(out, at, k - 1, n / 10);
    line::put_octet_at(out, next, digit((n % 10) as u8))
}

// A number in decimal.
fn put_decimal_at(out: &mut [u8], at: usize, n: u64) -> usize
    requires { at + length (decimal n) ≤ length out.old }
    ensures { Put (decimal n) at result out.old out.new }
{
    put_digits_at(out, at, limits::DIGITS - 1, n)
}

// An octet in hex.
fn put_pair_at(out: &mut [u8], at: usize, b: u8) -> usize
    requires { at + 2 ≤ length out.old }
    ensures { Put (pair b) at result out.old out.new }
{
    let next = line::put_octet_at(out, at, digit(b / 16));
    line::put_octet_at(out, next, digit(b % 16))
}

// Octets in hex.
fn put_hex_at(out: &mut [u8], at: usize, s: &[u8]) -> usize
    requires { at + 2 * length s.now ≤ length out.old }
    ensures { Put (hex s.now) at result out.old out.new }
{
    let mut next = at;
    for b in s {
        next = put_pair_at(out, next, *b);
    }
    next
}

// An answer in hex, or "-" where there is none.
#[tactic(auto, unfolding(flow::specs::Choice::pick))]
fn put_shown_at(out: &mut [u8], at: usize, answer: &[u8]) -> usize
    requires { at + 1 + 2 * length answer.now ≤ length out.old }
    ensures { Put (shown answer.now) at result out.old out.new }
{
    if answer.is_empty() {
        return line::put_octet_at(out, at, DASH);
    }
    put_hex_at(out, at, answer)
}

// The line of an event: its place, the returned number, and the answer. It prints any number, so no refusal is asked for.
pub fn put_line(out: &mut [u8], place: u64, number: u32, answer: &[u8]) -> usize
    requires { line_room (length answer.now) ≤ length out.old }
    ensures { Wrote (line_of place number answer.now) result out.old out.new }
{
    let a = put_decimal_at(out, 0, place);
    let b = line::put_octet_at(out, a, BLANK);
    let c = put_decimal_at(out, b, u64::from(number));
    let d = line::put_octet_at(out, c, BLANK);
    let e = put_shown_at(out, d, answer);
    line::put_octet_at(out, e, NEWLINE)
}
