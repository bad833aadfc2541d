// The grammar of theory text: trees and the words that spell them, loading word by word, and that the two agree.
#![tactic(auto)]

ghost use Rattle.grammar.specs.Theorems.{Exact, Single, LoadExact, FourExact};
ghost use Rattle.grammar.specs.Naming.{NamesAreNumberedAsMet, KeptExactlyIfATheoryIsSpelt, FourIsAtTheFirstMisplacedWord};

/// Words are accepted exactly if a theory's tree spells them, and they spell one tree at most.
pub fn words_spell_one_theory()
    ensures { (Exact) × (Single) }
{}

/// Words are loaded exactly if they spell a tree within the limits.
pub fn theories_within_the_limits_are_loaded()
    ensures { LoadExact }
{}

/// A text is kept exactly if it spells a theory within the limits, its names being numbered as first met.
pub fn texts_that_spell_theories_are_kept()
    ensures { (KeptExactlyIfATheoryIsSpelt) × (NamesAreNumberedAsMet) }
{}

/// Refusal 4 is at the first word with which no theory's words go on.
pub fn refusal_4_is_at_the_first_misplaced_word()
    ensures { (FourExact) × (FourIsAtTheFirstMisplacedWord) }
{}
