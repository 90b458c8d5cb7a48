// Fingerprints: a number of sixteen bits for a text, so that bytes are compared only where two numbers are equal.
// Those of up to 256 texts stand in a column, behind 64 places that are free, and are searched many at once.
#![tactic(auto)]

ghost use Rattle.std.specs.Prelude.{◌≡◌, ◌+◌, ◌≤◌, ◌<◌, length, drop};
ghost use Rattle.fingerprints.specs.Fingerprints.{WordAt, FewLeft, words, finished, fingerprint};
ghost use Rattle.fingerprints.specs.Columns.{NoneNear, NewAmong};

// The four bytes from a place on as one number. The machine reads them at once.
fn word(u: &[u8], i: usize) -> u64
    requires { i + 4 ≤ length u.now }
    ensures { WordAt u.now i result }
{
    let a = u64::from(u[i]);
    let b = u64::from(u[i + 1]);
    let c = u64::from(u[i + 2]);
    let d = u64::from(u[i + 3]);
    a + b * 256 + c * 65536 + d * 16777216
}

// The fingerprint from the sums so far, with fewer than four bytes left.
fn finish(u: &[u8], from: usize, first: u64, second: u64, third: u64) -> u16
    requires { FewLeft u.now from first second third }
    ensures { result ≡ finished first second third (words (drop from u.now)) }
{
    let mut one = first;
    let mut two = second;
    let mut three = third;
    for i in from..u.len() {
        one += u64::from(u[i]);
        two += one;
        three += two;
    }
    ((one + two * 8191 + three * 127) % 65447) as u16
}

// The fingerprint of a text: sums of its words, of these sums, and of those, so that each word counts by its place.
// Nothing but sums in the loop, which cannot overflow in a text so short.
pub fn fingerprint(u: &[u8]) -> u16
    requires { length u.now ≤ 1024 }
    ensures { result ≡ fingerprint u.now }
{
    let mut one = 0;
    let mut two = 0;
    let mut three = 0;
    let whole = u.len() / 4;
    for k in 0..whole {
        one += word(u, 4 * k);
        two += one;
        three += two;
    }
    finish(u, 4 * whole, one, two, three)
}

// Is x one of the 64 fingerprints from a place on? No early return, so that the machine tests eight at once.
fn is_near(prints: &[u16], from: usize, x: u16) -> bool
    requires { from + 64 ≤ length prints.now }
    ensures { NoneNear prints.now from x result }
{
    let mut found = false;
    for k in 0..64 {
        found = found | (prints[from + k] == x);
    }
    found
}

// Is x none of the first n fingerprints? Blocks go down from the last of them, so that none behind it is looked at;
// the last block may reach into the free places. A yes is certain, and a no may come from there.
// The column goes whole with its count (fixed memory): a slice of the n alone would not have those free places.
pub fn is_new(prints: &[u16], n: usize, x: u16) -> bool
    requires prints_len { length prints.now ≡ 320 }
    requires n_bound { n ≤ 256 }
    ensures { NewAmong prints.now n x result }
{
    for k in 0..n.div_ceil(64) {
        if is_near(prints, n - 64 * k, x) {
            return false;
        }
    }
    true
}
