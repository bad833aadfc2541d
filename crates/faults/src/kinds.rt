// The faults of the grammar, and those below it that it carries.
ghost use Rattle.std.specs.Prelude.{◌≡◌};
ghost use Rattle.faults.specs.declared.kinds.GrammarFault.TheVariants as fault;
ghost use Rattle.faults.specs.declared.kinds.LoadFault.TheVariants as load;

use crate::keeper_fault::KeeperFault;
use words::WordFault;

#[derive(Clone, Copy, Debug, PartialEq, Eq)]
pub enum GrammarRefusal {
    /// A word with which no theory goes on there.
    Misplaced = 4,
    /// A path within four others.
    TooDeep = 5,
}

impl GrammarRefusal {
    ghost use Rattle.faults.specs.Grammar.{own_number_lem};

    pub(crate) fn number(self) -> u8
        ensures { result ≡ own_number_lem self }
    {
        self as u8
    }
}

/// A new name, where there is no number left.
#[derive(Clone, Copy, Debug, PartialEq, Eq)]
pub struct NameFault {
    pub place: usize,
}

#[derive(Clone, Copy, Debug, PartialEq, Eq)]
pub enum GrammarFault {
    Word(WordFault),
    Own(GrammarRefusal, usize),
    Name(NameFault),
    Keeper(KeeperFault),
}

// Kept by hand: each lower fault is wrapped whole, and `from_gives` tells whoever carries one up what it becomes, which a derived conversion does not.

impl From<WordFault> for GrammarFault {
    ghost from_gives = { λ e r. r ≡ fault.Word e };

    fn from(e: WordFault) -> GrammarFault {
        GrammarFault::Word(e)
    }
}

impl From<NameFault> for GrammarFault {
    ghost from_gives = { λ e r. r ≡ fault.Name e };

    fn from(e: NameFault) -> GrammarFault {
        GrammarFault::Name(e)
    }
}

impl From<KeeperFault> for GrammarFault {
    ghost from_gives = { λ e r. r ≡ fault.Keeper e };

    fn from(e: KeeperFault) -> GrammarFault {
        GrammarFault::Keeper(e)
    }
}

/// Who refuses.
#[derive(Clone, Copy, Debug, PartialEq, Eq)]
pub enum Layer {
    Words,
    Grammar,
    Keeper,
    Names,
    Loader,
}

/// Why a text is not loaded.
#[derive(Clone, Copy, Debug, PartialEq, Eq)]
pub enum LoadFault {
    /// Over 65,536 bytes.
    TooLong,
    Grammar(GrammarFault),
}

impl From<GrammarFault> for LoadFault {
    ghost from_gives = { λ e r. r ≡ load.Grammar e };

    fn from(e: GrammarFault) -> LoadFault {
        LoadFault::Grammar(e)
    }
}
