// The class of each byte of a text.
#![tactic(auto)]

ghost use Rattle.std.specs.Prelude.{◌≡◌};
ghost use Rattle.classes.specs.Classes.{class_of};

use table::CLASSES;

mod table;

/// The marks of theory text: < > : = . " ' % ( ) # $ { }
#[derive(Clone, Copy, Debug, PartialEq, Eq)]
pub enum Mark {
    Less,
    Greater,
    Colon,
    Equals,
    Stop,
    Quote,
    Tick,
    Percent,
    Open,
    Close,
    Hash,
    Dollar,
    LeftBrace,
    RightBrace,
}

#[derive(Clone, Copy, Debug, PartialEq, Eq)]
pub enum ByteClass {
    Blank,
    Bad,
    Mark(Mark),
    Capital,
    Plain,
}

/// The class of a byte, by the table.
pub fn class_of(b: u8) -> ByteClass
    ensures { result ≡ class_of b }
{
    CLASSES[b as usize]
}
