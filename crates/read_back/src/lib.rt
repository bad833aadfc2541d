// What is written is read back: the bytes of questions and values, and the words that they have.
#![tactic(auto)]

ghost use Rattle.read_back.specs.Theorems.{QuestionsComeBack, ValuesComeBack, NamesStaySpellable};

/// A question that is written under spellable names reads as that question, and has no new name.
pub fn questions_come_back()
    ensures { QuestionsComeBack }
{}

/// The words of a value that is written under spellable names are its atoms.
pub fn values_come_back()
    ensures { ValuesComeBack }
{}

/// Texts and lines only give names that can be spelt.
pub fn names_stay_spellable()
    ensures { NamesStaySpellable }
{}
