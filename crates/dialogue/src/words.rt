// The words of a line, with blanks between them, the items of a list, with commas between them, and numbers.

// Whether the byte stands between two words: a space, a tab, the carriage return before a newline.
fn is_blank(byte: u8) -> bool {
    matches!(byte, b' ' | b'\t' | b'\r')
}

// The first, second, .. part of a text, counted from 0, where `parts` tells which bytes stand between two parts; no part is empty.
fn nth<F: Fn(u8) -> bool>(text: &[u8], which: usize, parts: F) -> Option<&[u8]>
    requires { F.IsAlwaysCallable parts }
{
    let mut left = which;
    let mut from = 0;
    for (i, byte) in text.iter().enumerate() {
        if parts(*byte) {
            if from < i {
                if left == 0 {
                    return Some(&text[from..i]);
                }
                left -= 1;
            }
            from = i + 1;
        }
    }
    if left == 0 && from < text.len() {
        return Some(&text[from..]);
    }
    None
}

// A word of a line by its number; no bytes where there is no such word.
pub(crate) fn word(text: &[u8], which: usize) -> &[u8] {
    nth(text, which, is_blank).unwrap_or(b"")
}

// An item of a list by its number.
pub(crate) fn item(text: &[u8], which: usize) -> Option<&[u8]> {
    nth(text, which, |byte| byte == b',')
}

// Whether the line has so many words.
pub(crate) fn has_words(text: &[u8], count: usize) -> bool {
    word(text, count).is_empty() && (count == 0 || !word(text, count - 1).is_empty())
}

// The number of 32 bits that the word is. A number has ten digits at most, with those in front that are 0, and no sign.
pub(crate) fn number_of(word: &[u8]) -> Option<u32> {
    if word.len() > 10 || matches!(word, [b'+', ..]) {
        return None;
    }
    str::from_utf8(word).ok()?.parse().ok()
}

// The number that a word of a line is, by the word's number.
pub(crate) fn number(text: &[u8], which: usize) -> Option<u32> {
    number_of(word(text, which))
}
