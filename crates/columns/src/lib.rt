// A field of six columns: read by a cursor, written into the front of what is lent.
#![tactic(auto)]

ghost use Rattle.std.specs.Prelude.{◌≡◌, ◌+◌, ◌≤◌, ◌<◌, length, drop};
ghost use Rattle.columns.specs.Fields.{place_value, column_of, columns, field_at, FieldIs};
ghost use Rattle.columns.specs.inner.Scans.{Blank, opening, fitting};
ghost use Rattle.columns.specs.Writing.{written, put};

// How many columns a field has.
pub const WIDTH: usize = 6;

// What each column is worth, the last column first: the rules name an array of places.
const PLACES: [u32; WIDTH] = [1, 10, 100, 1000, 10000, 100000];

// The columns in front of the last two. Most numbers are below 100 and have spaces there, which are read and written at once.
const FRONT: usize = 4;

// A place in the text. (Passed by value: the rules name a cursor so, and a reader that moves on itself would owe at each return that its text stays.)
#[derive(Clone, Copy)]
pub struct Cursor {
    pub at: usize,
}

// What the column of a place is worth. Both reading and writing go by it.
fn worth(place: usize) -> u32
    requires { place < 6 }
    ensures { result ≡ place_value place }
{
    PLACES[place]
}

// The byte in the column of a place.
fn column(n: u32, place: usize) -> u8
    requires { place < 6 }
    ensures { result ≡ column_of n place }
{
    let unit = worth(place);
    let digit = b'0' + (n / unit % 10) as u8;
    if place == 0 {
        return digit;
    }
    if n < unit {
        return b' ';
    }
    digit
}

// Whether a byte may stand where the number has not begun: a space, or its first digit.
#[tactic(auto, unfolding(crate::specs::inner::Scans::opening))]
fn is_opening(b: u8) -> bool
    ensures { result ≡ opening b }
{
    matches!(b, b' ' | b'1'..=b'9')
}

// Whether a byte may stand in the column of a place, after columns that are worth n: in the last column stands a digit in any case.
#[tactic(auto, unfolding(crate::specs::inner::Scans::digit, crate::specs::inner::Scans::fitting))]
fn fits(b: u8, n: u32, place: usize) -> bool
    ensures { result ≡ fitting b n place }
{
    if n != 0 || place == 0 {
        b.is_ascii_digit()
    } else {
        is_opening(b)
    }
}

// The number in the six columns at a position, from the left; those before the column `first` are known to be spaces.
// What a space or a digit counts for is in its low four bits. (The columns are read at their place in the text: the definitions speak of it, and of six bytes
// taken out by `first_chunk` it would have to be shown that they spell the same.)
fn scan(s: &[u8], at: usize, first: usize) -> Option<(u32, Cursor)>
    requires { (at + 6 ≤ length s.now) × (first < 6) × Blank s.now at first }
    ensures { result ≡ field_at s.now at }
{
    let mut n = 0;
    for i in first..WIDTH {
        let b = s[at + i];
        if !fits(b, n, WIDTH - 1 - i) {
            return None;
        }
        n += u32::from(b % 16) * worth(WIDTH - 1 - i);
    }
    Some((n, Cursor { at: at + WIDTH }))
}

impl Cursor {
    // The number in the six columns at the cursor, and the cursor after them. What is below 100, and below 10,000, is told by the spaces before it.
    #[tactic(auto, using(crate::proofs::Fields::field_told))]
    pub fn field(self, s: &[u8]) -> Option<(u32, Cursor)>
        ensures { (result ≡ field_at s.now self.at) × FieldIs s.now self.at result }
    {
        let at = self.at;
        if s.len() < WIDTH || s.len() - WIDTH < at {
            return None;
        }
        if s[at..].starts_with(b"    ") {
            scan(s, at, FRONT)
        } else if s[at..].starts_with(b"  ") {
            scan(s, at, 2)
        } else {
            scan(s, at, 0)
        }
    }
}

// Writes n into six columns of what is lent, from the column `first` on. (By the index, for the place that a column counts for goes with it.)
fn write_columns(out: &mut [u8], n: u32, first: usize)
    requires { (6 ≤ length out.old) × (n < 1000000) × (first < 6) }
    ensures { out.new ≡ put out.old first (drop first (columns n)) }
{
    for i in first..WIDTH {
        out[i] = column(n, WIDTH - 1 - i);
    }
}

// Writes n into the first six columns of what is lent. (By the array of places, as the rules name it: formatted output allocates, or has no contract on its
// bytes.)
pub fn write_field(out: &mut [u8], n: u32)
    requires { (6 ≤ length out.old) × (n < 1000000) }
    ensures { out.new ≡ written out.old (columns n) }
{
    if n < worth(WIDTH - FRONT) {
        out[..FRONT].fill(b' ');
        write_columns(out, n, FRONT);
    } else {
        write_columns(out, n, 0);
    }
}
