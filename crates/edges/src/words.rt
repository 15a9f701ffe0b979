// The text of the cases: lines of words, with one space between two words. It is bytes, as what a file has need not be text. A place in it is all
// that stands from there on, the lines below too, since what a line lacks is read on past its end.
ghost use Rattle.std.specs.Iterator.{at_most};

// No line here is longer, none has more words, no number more digits, and no file or group more lines.
const LINE: usize = 1000;

const WORDS: usize = 100;

const DIGITS: usize = 20;

const LINES: usize = 1000;

// The byte that stands here. Past the end the last line is taken to end.
pub(crate) fn byte_at(text: &[u8]) -> u8 {
    text.first().copied().unwrap_or(b'\n')
}

// What stands behind so many bytes.
pub(crate) fn behind_bytes(text: &[u8], count: usize) -> &[u8] {
    text.get(count..).unwrap_or(&[])
}

fn ends_word(byte: u8) -> bool {
    byte == b' ' || byte == b'\n'
}

// The bytes of the word that stands here.
fn bytes_at(text: &[u8]) -> &[u8] {
    let end = text.iter().take(LINE).position(|byte| ends_word(*byte));
    text.get(..end.unwrap_or(LINE)).unwrap_or(text)
}

// The word that stands here; empty where it is not text, as no word of a case and no name of a file is.
pub(crate) fn word_at(text: &[u8]) -> &str {
    str::from_utf8(bytes_at(text)).unwrap_or("")
}

// The line that stands here.
pub(crate) fn line_at(text: &[u8]) -> &[u8] {
    let end = text.iter().take(LINE).position(|byte| *byte == b'\n');
    text.get(..end.unwrap_or(LINE)).unwrap_or(text)
}

// The next line.
pub(crate) fn next_line(text: &[u8]) -> &[u8] {
    behind_bytes(text, line_at(text).len() + 1)
}

// The next word of the line; the line's end where there is none.
pub(crate) fn next_word(text: &[u8]) -> &[u8] {
    match behind_bytes(text, bytes_at(text).len()) {
        [b' ', next @ ..] => next,
        end => end,
    }
}

// The word that is so many behind this one.
pub(crate) fn word_behind(text: &[u8], which: usize) -> &[u8] {
    let mut place = text;
    for _ in 0..which {
        place = next_word(place);
    }
    place
}

// What stands behind a mark that is a word of the line, from here on; the line's end where it has no such word.
pub(crate) fn behind<'a>(text: &'a [u8], mark: &str) -> &'a [u8] {
    let mut end = text;
    for place in words_from(text) {
        end = next_word(place);
        // at the line's end there is no next word
        if bytes_at(place) == mark.as_bytes() || end.len() == place.len() {
            break;
        }
    }
    end
}

// The number that stands here, and what stands behind its digits: 0 where there are none, and past the largest from 0 on again.
pub(crate) fn number_at(text: &[u8]) -> (u64, &[u8]) {
    let mut number: u64 = 0;
    let mut rest = text;
    for digit in text.iter().take(DIGITS) {
        if !digit.is_ascii_digit() {
            return (number, rest);
        }
        let digit = u64::from(digit.wrapping_sub(b'0'));
        number = number.wrapping_mul(10).wrapping_add(digit);
        rest = behind_bytes(rest, 1);
    }
    (number, rest)
}

// The numbers that are words of the line, from the one that is so many behind this one on.
pub(crate) fn numbers<const N: usize>(text: &[u8], from: usize) -> [u64; N] {
    let mut numbers = [0; N];
    for (number, word) in numbers.iter_mut().zip(words_from(word_behind(text, from))) {
        (*number, _) = number_at(word);
    }
    numbers
}

// A number as a smaller type; the largest of it where it is past that.
pub(crate) fn narrow(n: u64) -> u32 {
    u32::try_from(n).unwrap_or(u32::MAX)
}

pub(crate) fn byte_of(n: u64) -> u8 {
    u8::try_from(n).unwrap_or(u8::MAX)
}

// The places of words, one behind the other, at last the line's end again and again: as many as a line has at most.
#[derive(Drop)]
pub struct Words<'a> {
    place: &'a [u8],
    left: usize,
}

pub(crate) fn words_from(text: &[u8]) -> Words<'_> {
    Words {
        place: text,
        left: WORDS,
    }
}

impl<'a> Iterator for Words<'a> {
    type Item = &'a [u8];

    ghost remaining = { λ s. at_most s.left };

    fn next(&mut self) -> Option<&'a [u8]> {
        let place = self.place;
        if self.left == 0 {
            return None;
        }
        self.left -= 1;
        self.place = next_word(place);
        Some(place)
    }
}

// The places of lines, one below the other, to the text's end: as many as there are at most.
#[derive(Drop)]
pub struct Lines<'a> {
    place: &'a [u8],
    left: usize,
}

pub(crate) fn lines_from(text: &[u8]) -> Lines<'_> {
    Lines {
        place: text,
        left: LINES,
    }
}

impl<'a> Iterator for Lines<'a> {
    type Item = &'a [u8];

    ghost remaining = { λ s. at_most s.left };

    fn next(&mut self) -> Option<&'a [u8]> {
        let place = self.place;
        if self.left == 0 || place.is_empty() {
            return None;
        }
        self.left -= 1;
        self.place = next_line(place);
        Some(place)
    }
}
