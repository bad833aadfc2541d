// What stands at a place of a text.
ghost use Rattle.std.specs.Prelude.{◌≡◌, ℕ, ◌+◌, ◌<◌, ◌≤◌, Bool, true, false, List, length, drop, IfOk};
ghost use Rattle.std.specs.List.{prefix_len};
ghost use Rattle.words.specs.Words.{Token, blank_byte, of_name, gap, bare, quoted, marked, word_from, named_by, read_by};

use crate::faults::WordRefusal;
use crate::word::Word;
use classes::{ByteClass, Mark, class_of};
use terms::limits::NAME_BYTES;

fn is_blank(b: u8) -> bool
    ensures { result ≡ blank_byte b }
{
    matches!(class_of(b), ByteClass::Blank)
}

/// Whether a byte goes on with an unquoted name.
pub fn is_of_bare_name(b: u8) -> bool
    ensures { result ≡ of_name false b }
{
    matches!(class_of(b), ByteClass::Capital | ByteClass::Plain)
}

// Whether a byte goes on with a name between quotes.
fn is_of_quoted_name(b: u8) -> bool
    ensures { result ≡ of_name true b }
{
    b >= 32 && b != 127 && b != b'\''
}

// How many bytes of blanks and comments stand in front.
pub(crate) fn gap_len(bytes: &[u8]) -> usize
    ensures within { result ≤ length bytes.now }
    ensures value { result ≡ gap false bytes.now }
{
    let mut in_comment = false;
    for (i, b) in bytes.iter().enumerate() {
        if in_comment {
            in_comment = *b != b'\n';
        } else if *b == b'%' {
            in_comment = true;
        } else if !is_blank(*b) {
            return i;
        }
    }
    bytes.len()
}

// How many bytes in front pass a test.
fn run_len<F: Fn(u8) -> bool>(bytes: &[u8], passes: F) -> usize
    requires { F.IsAlwaysCallable passes }
    ensures within { result ≤ length bytes.now }
    ensures value { (p : ℕ → Bool) → ((b : ℕ) (r : Bool) → F.post passes b r → r ≡ p b) → result ≡ prefix_len p bytes.now }
{
    bytes.iter().take_while(|b| passes(**b)).count()
}

// Kept here and below: these are no methods of the reader, since a fault leaves it as it was; so each says that its word ends within the text.

// An unquoted name, and the place behind it.
fn bare_name<'a>(text: &'a [u8], place: usize) -> Result<(&'a [u8], usize), WordRefusal>
    requires { place ≤ length text.now }
    ensures value { (f : List ℕ → Token) → named_by f place result ≡ bare f place (drop place text.now) (prefix_len (of_name false) (drop place text.now)) }
    ensures within { IfOk result (λ p. p.1 ≤ length text.now) }
{
    let end = place + run_len(&text[place..], is_of_bare_name);
    if end - place > NAME_BYTES {
        return Err(WordRefusal::NameLength);
    }
    Ok((&text[place..end], end))
}

// The name between the ' at a place and the next, and the place behind that.
fn quoted_name<'a>(text: &'a [u8], place: usize) -> Result<(&'a [u8], usize), WordRefusal>
    requires { place < length text.now }
    ensures value { (f : List ℕ → Token) → named_by f place result ≡ quoted f place (drop (place + 1) text.now) (prefix_len (of_name true) (drop (place + 1) text.now)) }
    ensures within { IfOk result (λ p. p.1 ≤ length text.now) }
{
    let start = place + 1;
    let end = start + run_len(&text[start..], is_of_quoted_name);
    if text.get(end) != Some(&b'\'') {
        return Err(WordRefusal::OpenQuote);
    }
    if end == start || end - start > NAME_BYTES {
        return Err(WordRefusal::NameLength);
    }
    Ok((&text[start..end], end + 1))
}

// The word that begins with the mark at a place, and the place behind it.
fn mark_word<'a>(text: &'a [u8], place: usize, m: Mark) -> Result<(Word<'a>, usize), WordRefusal>
    requires { place < length text.now }
    ensures value { read_by place result ≡ marked place m (drop (place + 1) text.now) }
    ensures within { IfOk result (λ p. p.1 ≤ length text.now) }
{
    match m {
        Mark::Tick => {
            let (name, after) = quoted_name(text, place)?;
            Ok((Word::Atom(name), after))
        }
        Mark::Equals => {
            if text.get(place + 1) == Some(&b'=') {
                Ok((Word::Equals, place + 2))
            } else {
                Ok((Word::Stray, place + 1))
            }
        }
        Mark::Less => Ok((Word::Less, place + 1)),
        Mark::Greater => Ok((Word::Greater, place + 1)),
        Mark::Colon => Ok((Word::Colon, place + 1)),
        Mark::Stop => Ok((Word::Stop, place + 1)),
        Mark::Quote => Ok((Word::Quote, place + 1)),
        Mark::Open => Ok((Word::Open, place + 1)),
        Mark::Close => Ok((Word::Close, place + 1)),
        _ => Ok((Word::Stray, place + 1)),
    }
}

// The word that begins at a place, and the place behind it.
pub(crate) fn word_at<'a>(text: &'a [u8], place: usize) -> Result<(Word<'a>, usize), WordRefusal>
    requires { place ≤ length text.now }
    ensures value { read_by place result ≡ word_from place (drop place text.now) }
    ensures within { IfOk result (λ p. p.1 ≤ length text.now) }
{
    if place == text.len() {
        return Ok((Word::End, place));
    }
    match class_of(text[place]) {
        ByteClass::Blank | ByteClass::Bad => Err(WordRefusal::BadByte),
        ByteClass::Mark(m) => mark_word(text, place, m),
        ByteClass::Capital => {
            let (name, after) = bare_name(text, place)?;
            Ok((Word::Node(name), after))
        }
        ByteClass::Plain => {
            let (name, after) = bare_name(text, place)?;
            Ok((Word::Atom(name), after))
        }
    }
}
