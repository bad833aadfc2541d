// Cases of the word reader: texts, and the words that they have by the rules.
#![tactic(auto)]

#[cfg(test)]
mod cases;

use std::alloc::Global;
use std::io::{self, Write};
use words::{Word, WordFault, WordReader};

fn put_word(out: &mut Vec<u8>, word: Word<'_>) -> io::Result<()> {
    match word {
        Word::Less => out.write_all(b"<"),
        Word::Greater => out.write_all(b">"),
        Word::Colon => out.write_all(b":"),
        Word::Equals => out.write_all(b"=="),
        Word::Stop => out.write_all(b"."),
        Word::Quote => out.write_all(b"\""),
        Word::Open => out.write_all(b"("),
        Word::Close => out.write_all(b")"),
        Word::Node(name) => {
            out.write_all(b"node ")?;
            out.write_all(name)
        }
        Word::Atom(name) => {
            out.write_all(b"atom ")?;
            out.write_all(name)
        }
        Word::Stray => out.write_all(b"stray"),
        Word::End => out.write_all(b"end"),
    }
}

fn put_fault(out: &mut Vec<u8>, fault: WordFault) -> io::Result<()> {
    write!(out, "{} fault {}", fault.place, fault.refusal.number())
}

// The words of a text up to its end or its first fault, each as its place and what it is, with a bar between them.
fn listing(heap: Global, text: &[u8]) -> io::Result<Vec<u8>> {
    let mut out = Vec::new(heap);
    let mut reader = WordReader::new(text);
    // A bound, so that the loop ends: no text has more words than bytes.
    for _ in 0..=text.len() {
        match reader.next() {
            Ok(placed) => {
                write!(out, "{} ", placed.place)?;
                put_word(&mut out, placed.word)?;
                if matches!(placed.word, Word::End) {
                    break;
                }
                out.write_all(b"|")?;
            }
            Err(fault) => {
                put_fault(&mut out, fault)?;
                break;
            }
        }
    }
    Ok(out)
}
