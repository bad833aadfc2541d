// A text that is read whole, or its first fault.
ghost use Rattle.std.specs.Prelude.{◌≡◌};
ghost use Rattle.forms.specs.Texts.{number, place, tally_of};
ghost use Rattle.forms.specs.declared.texts.TextFault.TheVariants as fault;

use faults::TEXT_BYTES;
use words::{Tally, WordFault, tally_words};

// Kept beside the fault of a load: words alone are read here, and no grammar.
#[derive(Clone, Copy, Debug, PartialEq, Eq)]
pub enum TextFault {
    TooLong,
    Word(WordFault),
}

// By hand, since the contract of `tally_text` names the fault that its `?` makes.
impl From<WordFault> for TextFault {
    ghost from_gives = { λ e r. r ≡ fault.Word e };

    fn from(e: WordFault) -> TextFault {
        TextFault::Word(e)
    }
}

impl TextFault {
    pub fn number(self) -> u8
        ensures { result ≡ number self }
    {
        match self {
            TextFault::TooLong => 11,
            TextFault::Word(e) => e.refusal.number(),
        }
    }

    pub fn place(self) -> usize
        ensures { result ≡ place self }
    {
        match self {
            TextFault::TooLong => TEXT_BYTES,
            TextFault::Word(e) => e.place,
        }
    }
}

/// The count of a text's words, or its first fault; its length is tested before all else.
pub fn tally_text(text: &[u8]) -> Result<Tally, TextFault>
    ensures { result ≡ tally_of text.now }
{
    if text.len() > TEXT_BYTES {
        return Err(TextFault::TooLong);
    }
    Ok(tally_words(text)?)
}

#[cfg(test)]
mod tests {
    use super::*;
    use std::test::Fail;

    // What is told of a text of so many blanks: how many words it has, or the number and place of its fault.
    fn told(rt: HostRuntime, length: usize) -> Result<Result<usize, (u8, usize)>, Fail> {
        let text = vec![in rt.alloc(); b' '; length]?;
        let told = tally_text(&text).map(|tally| tally.words);
        Ok(told.map_err(|fault| (fault.number(), fault.place())))
    }

    #[test]
    fn longest_text(rt: HostRuntime) -> Result<(), Fail> {
        assert_eq!(rt; told(rt, 65_536)?, Ok(0));
        Ok(())
    }

    #[test]
    fn text_too_long(rt: HostRuntime) -> Result<(), Fail> {
        assert_eq!(rt; told(rt, 65_537)?, Err((11, 65_536)));
        Ok(())
    }
}
