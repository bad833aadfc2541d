// What a line says.
use evaluator::Outcome;
use names::Names;
use sentences::Question;
use terms::Atom;

/// What is shown of a question, to be spelled under names.
#[derive(Clone, Copy)]
pub(crate) struct Answer<'a> {
    pub(crate) names: &'a Names,
    pub(crate) question: &'a Question,
    pub(crate) outcome: Outcome,
    pub(crate) value: &'a [Atom],
    pub(crate) steps: u32,
}

/// A refusal with number and place, behind a title and a mark.
#[derive(Clone, Copy)]
pub(crate) struct Refused<'a> {
    pub(crate) title: &'a [u8],
    pub(crate) mark: &'a [u8],
    pub(crate) number: u8,
    pub(crate) place: usize,
}

#[derive(Clone, Copy)]
pub(crate) enum Content<'a> {
    Answer(Answer<'a>),
    Refused(Refused<'a>),
}
