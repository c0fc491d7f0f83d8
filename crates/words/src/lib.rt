// Lines, words, numbers and hexadecimal bytes of a text.
#![tactic(auto)]

ghost use Rattle.std.specs.Prelude.{◌≡◌, ℕ, List, ◌+◌, ◌-◌, ◌*◌, ◌/◌, ◌^◌, ◌<◌, ◌≤◌, true, length, is_some, IfSome, if◌then◌else◌, Some, None};
ghost use Rattle.std.specs.Iterator.{YieldsFirstRef, item_count};
ghost use Rattle.words.specs.Words.{place_of, spaces_of, line_of, after_line, lines_of, word_of, after_word, words_of, is_digit, under, number_of, hex_digit_of, hex_byte_of, hex_of, fitting, size_of, over_front};

use std::marker::Model;

// How many bytes stand before the first `stop`; all of them where there is none.
fn place_of(stop: u8, bytes: &[u8]) -> usize
    ensures place { result ≡ place_of stop bytes.now }
    ensures within { result ≤ length bytes.now }
{
    bytes.iter().position(|b| *b == stop).unwrap_or(bytes.len())
}

fn spaces_of(bytes: &[u8]) -> usize
    ensures spaces { result ≡ spaces_of bytes.now }
    ensures within { result ≤ length bytes.now }
{
    bytes.iter().position(|b| *b != b' ').unwrap_or(bytes.len())
}

/// The first line of a text without its newline, and what follows that.
pub fn split_line(text: &[u8]) -> (&[u8], &[u8])
    ensures line { result.0.now ≡ line_of text.now }
    ensures rest { result.1.now ≡ after_line text.now }
{
    let end = place_of(b'\n', text);
    if end == text.len() {
        return (text, &[]);
    }
    (&text[..end], &text[end + 1..])
}

/// The first word of a line, behind its leading spaces, and what follows the word.
pub fn split_word(line: &[u8]) -> (&[u8], &[u8])
    ensures word { result.0.now ≡ word_of line.now }
    ensures rest { result.1.now ≡ after_word line.now }
{
    let start = spaces_of(line);
    let trimmed = &line[start..];
    trimmed.split_at(place_of(b' ', trimmed))
}

/// The lines of a text in order, each without its newline.
#[derive(Drop)]
pub struct Lines<'a> {
    rest: &'a [u8],
}

impl<'a> Model for Lines<'a> {
    ghost Value = { List (List ℕ) };

    ghost view = { λ s. lines_of s.rest.now };
}

impl<'a> Lines<'a> {
    /// All lines of a text.
    #[tactic(auto, using(crate::proofs::Lists::lines_count))]
    pub fn new(text: &'a [u8]) -> Self
        ensures lines { result ≡ lines_of text.now }
        ensures count { length result ≤ length text.now }
    {
        Lines { rest: text }
    }
}

impl<'a> Iterator for Lines<'a> {
    type Item = &'a [u8];

    ghost next_gives = { YieldsFirstRef (λ lines. lines) };

    ghost remaining = { item_count (λ lines. lines) };

    fn next(&mut self) -> Option<&'a [u8]> {
        if self.rest.is_empty() {
            return None;
        }
        let (line, rest) = split_line(self.rest);
        self.rest = rest;
        Some(line)
    }
}

/// The words of a line in order.
#[derive(Drop)]
pub struct Words<'a> {
    rest: &'a [u8],
}

impl<'a> Model for Words<'a> {
    ghost Value = { List (List ℕ) };

    ghost view = { λ s. words_of s.rest.now };
}

impl<'a> Words<'a> {
    /// All words of a line.
    #[tactic(auto, using(crate::proofs::Lists::words_count))]
    pub fn new(line: &'a [u8]) -> Self
        ensures words { result ≡ words_of line.now }
        ensures count { length result ≤ length line.now }
    {
        Words { rest: line }
    }
}

impl<'a> Iterator for Words<'a> {
    type Item = &'a [u8];

    ghost next_gives = { YieldsFirstRef (λ words. words) };

    ghost remaining = { item_count (λ words. words) };

    fn next(&mut self) -> Option<&'a [u8]> {
        let (word, rest) = split_word(self.rest);
        if word.is_empty() {
            return None;
        }
        self.rest = rest;
        Some(word)
    }
}

fn digit(b: u8) -> Option<u8>
    ensures { result ≡ (if is_digit b then Some (b - 48) else None) }
{
    match b {
        b'0'..=b'9' => Some(b - b'0'),
        _ => None,
    }
}

// A value with one more decimal digit, where that fits.
fn with_digit(value: u64, digit: u8) -> Option<u64>
    ensures { result ≡ under (2 ^ 64) (Some (value * 10 + digit)) }
{
    value.checked_mul(10)?.checked_add(u64::from(digit))
}

/// The number that a word spells in decimal digits. None where it has none or others, or where the number takes more than 64 bits.
pub fn number(word: &[u8]) -> Option<u64>
    ensures { result ≡ number_of word.now }
{
    if word.is_empty() {
        return None;
    }
    let mut value = 0;
    for b in word {
        value = with_digit(value, digit(*b)?)?;
    }
    Some(value)
}

/// The value of a hexadecimal digit, in upper or lower case.
pub fn hex_digit(b: u8) -> Option<u8>
    ensures value { result ≡ hex_digit_of b }
    ensures small { IfSome result (λ d. d < 16) }
{
    match b {
        b'0'..=b'9' => Some(b - b'0'),
        b'a'..=b'f' => Some(b - b'a' + 10),
        b'A'..=b'F' => Some(b - b'A' + 10),
        _ => None,
    }
}

fn hex_byte(high: u8, low: u8) -> Option<u8>
    ensures { result ≡ hex_byte_of high low }
{
    Some(hex_digit(high)? * 16 + hex_digit(low)?)
}

fn is_hex(word: &[u8]) -> bool
    ensures { result ≡ is_some (hex_of word.now) }
{
    let (pairs, rest) = word.as_chunks::<2>();
    rest.is_empty()
        && pairs
            .iter()
            .all(|[high, low]| hex_byte(*high, *low).is_some())
}

/// How many bytes a word spells in hexadecimal. None where it is no such.
pub fn hex_size(word: &[u8]) -> Option<usize>
    ensures { result ≡ size_of (hex_of word.now) }
{
    is_hex(word).then_some(word.len() / 2)
}

// Writes the bytes of a hexadecimal word into an area of their size.
fn decode(word: &[u8], out: &mut [u8])
    requires hex { is_some (hex_of word.now) ≡ true }
    requires size { length word.now ≡ 2 * length out.old }
    ensures { Some out.new ≡ hex_of word.now }
{
    let (pairs, _) = word.as_chunks::<2>();
    // By an index: a proof knows nothing of what is written through a `zip` with `iter_mut`.
    for (i, byte) in out.iter_mut().enumerate() {
        let [high, low] = pairs[i];
        *byte = hex_byte(high, low).unwrap();
    }
}

/// Writes the bytes that a word spells in hexadecimal to the front of an area and answers how many they are.
/// None, with nothing changed, where the word is no such or the bytes do not fit.
pub fn hex_into(word: &[u8], out: &mut [u8]) -> Option<usize>
    ensures size { result ≡ size_of (fitting (length out.old) (hex_of word.now)) }
    ensures after { out.new ≡ over_front out.old (fitting (length out.old) (hex_of word.now)) }
{
    // Before all else, so that a word that is too long is not gone through.
    if word.len() > 2 * out.len() {
        return None;
    }
    let size = hex_size(word)?;
    decode(word, &mut out[..size]);
    Some(size)
}
