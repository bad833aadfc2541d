// Which names of atoms stand without quotes.
ghost use Rattle.std.specs.Prelude.{◌≡◌, false};
ghost use Rattle.terms.specs.Maps.{every};
ghost use Rattle.classes.specs.Classes.{class_of};
ghost use Rattle.words.specs.Words.{of_name};
ghost use Rattle.lines.specs.Bytes.{is_plain, bare};

use classes::{ByteClass, class_of};
use words::is_of_bare_name;

fn is_plain(b: u8) -> bool
    ensures { result ≡ is_plain (class_of b) }
{
    matches!(class_of(b), ByteClass::Plain)
}

fn all_of_name(name: &[u8]) -> bool
    ensures { result ≡ every (of_name false) name.now }
{
    name.iter().all(|b| is_of_bare_name(*b))
}

pub(crate) fn is_bare(name: &[u8]) -> bool
    ensures { result ≡ bare name.now }
{
    match name {
        [] => false,
        [first, ..] => is_plain(*first) && all_of_name(name),
    }
}
