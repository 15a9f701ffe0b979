// The bytes of a table made alike, whatever program saved it. specs/Understood says what each function answers.
ghost use Rattle.std.specs.Prelude.{◌≡◌, false, drop};
ghost use Rattle.text.specs.Text.{Appended};
ghost use Rattle.table.specs.Understood.{mark_length, turned as Understood·turned, parting as Understood·parting, separator_from, small as Understood·small, content as Understood·content, byte_read_as, plain_byte, plain};

// How many bytes the byte order mark takes at the front.
#[tactic(auto, unfolding(crate::specs::Understood::mark_length))]
fn mark_length(text: &[u8]) -> usize
    ensures { result ≡ mark_length text.now }
{
    match text {
        [0xef, 0xbb, 0xbf, ..] => 3,
        _ => 0,
    }
}

// Whether what follows the byte is quoted.
#[tactic(auto, unfolding(crate::specs::Understood::turned))]
fn turned(quoted: bool, byte: u8) -> bool
    ensures { result ≡ Understood·turned quoted byte }
{
    if byte == b'"' { !quoted } else { quoted }
}

// Whether the byte may part cells.
#[tactic(auto, unfolding(crate::specs::Understood::parting))]
fn parting(quoted: bool, byte: u8) -> bool
    ensures { result ≡ Understood·parting quoted byte }
{
    !quoted && matches!(byte, b',' | b';' | b'\t')
}

// What parts the cells of the table, from a place on. A place and no slice: `&text[from..]` would ask that there are so many bytes.
fn separator_of(text: &[u8], from: usize) -> u8
    ensures { result ≡ separator_from false (drop from text.now) }
{
    let mut quoted = false;
    for i in from..text.len() {
        let byte = text[i];
        if parting(quoted, byte) {
            return byte;
        }
        quoted = turned(quoted, byte);
    }
    b','
}

// A small letter for a capital one.
#[tactic(auto, unfolding(crate::specs::Understood::small))]
fn small(byte: u8) -> u8
    ensures { result ≡ Understood·small byte }
{
    byte.to_ascii_lowercase()
}

// A byte of a cell.
#[tactic(auto, unfolding(crate::specs::Understood::content))]
fn content(byte: u8) -> u8
    ensures { result ≡ Understood·content byte }
{
    if byte == b',' { b';' } else { small(byte) }
}

// A byte as it is read.
#[tactic(auto, unfolding(crate::specs::Understood::byte_read_as))]
fn read_as(separator: u8, quoted: bool, byte: u8) -> u8
    ensures { result ≡ byte_read_as separator quoted byte }
{
    if quoted {
        if byte == b'\n' {
            return b';';
        }
        return content(byte);
    }
    if byte == separator {
        return b',';
    }
    content(byte)
}

// A byte as it is read, unless it is left out.
#[tactic(auto, unfolding(crate::specs::Understood::plain_byte), using(text::specs::Laws::Appends::none))]
fn put_byte(out: &mut [u8], at: usize, separator: u8, quoted: bool, byte: u8) -> usize
    ensures { Appended (plain_byte separator quoted byte) out.old at out.new result }
{
    match byte {
        b'"' | b'\r' => at,
        _ => text::put(out, at, read_as(separator, quoted, byte)),
    }
}

// The plain text of a table at the front of a buffer; from a place on, as above.
pub(crate) fn put_plain(text: &[u8], out: &mut [u8]) -> usize
    ensures put { Appended (plain text.now) out.old 0 out.new result }
{
    let from = mark_length(text);
    let separator = separator_of(text, from);
    let mut next = 0;
    let mut quoted = false;
    for i in from..text.len() {
        let byte = text[i];
        next = put_byte(out, next, separator, quoted, byte);
        quoted = turned(quoted, byte);
    }
    next
}
