// Appending text at a place of a lent buffer: bytes, words and numbers in decimal. Each function writes what its definition in specs/ says, touches
// nothing else, and answers the place after it. What does not fit is left out: a caller who knows that there is room knows that all stands there.
// The buffer and its place, `(out: &mut [u8], at: usize)`, stand beside each other here and in every crate above that writes: a page that holds the lent
// buffer was tried and proves, but each function that makes one of a lent buffer needs a step that cites a name of the toolchain's own, and every clause
// has to say that the buffer is still the same: no plainer. Nor are they `Display` and `write!`: docs/PROMISES.md names each, and the sheet's definition
// is made of what they append.
#![tactic(auto)]

ghost use Rattle.std.specs.Prelude.{◌≡◌, [], ◌∷◌, ◌<◌};
ghost use Rattle.text.specs.Text.{Appended};
ghost use Rattle.text.specs.Text.{decimal as Text·decimal, digit as Text·digit};

// One byte.
pub fn put(out: &mut [u8], at: usize, byte: u8) -> usize
    ensures { Appended (byte ∷ []) out.old at out.new result }
{
    if at >= out.len() {
        return at;
    }
    out[at] = byte;
    at + 1
}

// The bytes of a word.
pub fn word(out: &mut [u8], at: usize, bytes: &[u8]) -> usize
    ensures appended { Appended bytes.now out.old at out.new result }
    ensures kept { bytes.exit.now ≡ bytes.entry.now }
{
    let mut next = at;
    for &byte in bytes {
        next = put(out, next, byte);
    }
    next
}

// The digit of a number below 10.
fn digit(n: u64) -> u8
    requires { n < 10 }
    ensures { result ≡ Text·digit n }
{
    b'0' + n as u8
}

// A number in decimal: what is left of its last digit, then that digit.
pub fn decimal(out: &mut [u8], at: usize, n: u64) -> usize
    ensures { Appended (Text·decimal n) out.old at out.new result }
{
    if n < 10 {
        return put(out, at, digit(n));
    }
    let next = decimal(out, at, n / 10);
    put(out, next, digit(n % 10))
}

// A number after a mark.
pub fn number(out: &mut [u8], at: usize, mark: u8, n: u64) -> usize
    ensures { Appended (mark ∷ Text·decimal n) out.old at out.new result }
{
    let next = put(out, at, mark);
    decimal(out, next, n)
}

// As a wider number, which `u64::from` says as well: it stays since docs/PROMISES.md names it.
pub fn wide(n: u32) -> u64
    ensures { result ≡ n }
{
    u64::from(n)
}
