// What evaluation means: Keller's rules, the outcome of a question with its steps, and that they agree.
#![tactic(auto)]

ghost use Rattle.rules.specs.Theorems.{MostSpecificIsFound, SameQuestionIsEquality, TableDerivesAsKeller, DerivationsAgree, ValuesAreDerivedWithinTheLimits, DerivedValuesAreOutcomes, StopsMeanNoDerivation, AllIsShownByTheRules};
ghost use Rattle.rules.specs.Worked.{WorkedTheoryComesTo, LampBySteps};
ghost use Rattle.rules.specs.QuestionTable.{QuestionsAreAsInTheTable};
ghost use Rattle.rules.specs.Boundaries.{OpenSentencesEndAt96, ValuesEndAt256, PathsEndAt32, TestsComeInOrder, TermsAreWorkedFromLeftToRight};

/// Keller's Def uses the sentence that the look-up finds.
pub fn most_specific_is_found()
    ensures { MostSpecificIsFound }
{}

/// The test for a circle is of equality in node, path and context.
pub fn same_question_is_equality()
    ensures { SameQuestionIsEquality }
{}

/// The table of questions and Keller's rules derive the same values, with the same number of uses of Def, also within the limits.
pub fn table_derives_as_keller()
    ensures { TableDerivesAsKeller }
{}

/// All derivations of a question agree in value and in uses of Def.
pub fn derivations_agree()
    ensures { DerivationsAgree }
{}

/// A value outcome is derived within the limits, in as many uses of Def as steps.
pub fn values_are_derived_within_the_limits()
    ensures { ValuesAreDerivedWithinTheLimits }
{}

/// Every value derived within the limits is the outcome, in as many steps as uses of Def.
pub fn derived_values_are_outcomes()
    ensures { DerivedValuesAreOutcomes }
{}

/// Undefined and circular mean that nothing is derived; path, depth and length, that no derivation keeps that limit.
pub fn stops_mean_no_derivation()
    ensures { StopsMeanNoDerivation }
{}

/// For every question and every number of granted steps: what is shown and the steps reported, by Keller's rules.
pub fn all_is_shown_by_the_rules()
    ensures { AllIsShownByTheRules }
{}

/// The worked theory's table, and one of its questions by steps.
pub fn worked_theory_comes_to_its_table()
    ensures { (WorkedTheoryComesTo) × (LampBySteps) }
{}

/// Each term asks the question that its row of the table has: node, path and context are told by the values of a theory.
pub fn questions_are_as_in_the_table()
    ensures { QuestionsAreAsInTheTable }
{}

/// Where 96 open sentences, 256 atoms of a value and 32 atoms of a path end.
pub fn limits_end_where_they_say()
    ensures { (OpenSentencesEndAt96) × ((ValuesEndAt256) × (PathsEndAt32)) }
{}

/// A new question is tested for depth after path and circular, and the first term that stops says why.
pub fn tests_and_terms_come_in_order()
    ensures { (TestsComeInOrder) × (TermsAreWorkedFromLeftToRight) }
{}
