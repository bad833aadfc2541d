// The parts of a line.
ghost use Rattle.std.specs.Prelude.{◌≡◌};
ghost use Rattle.names.specs.Tables.{atoms_in};
ghost use Rattle.engine.specs.States.{stop_of};
ghost use Rattle.lines.specs.Bytes.{stop_bytes, placed_bytes};
ghost use Rattle.lines.specs.Names.{names_of};
ghost use Rattle.lines.specs.Lines.{question_spelled, word_bytes, said_by, answer_bytes, refused_bytes, bytes_of};
ghost use Rattle.lines.specs.Pens.{Spells};

use crate::content::{Answer, Content, Refused};
use crate::pen::Pen;
use engine::Stop;
use evaluator::Outcome;
use names::Names;
use sentences::Question;
use terms::Atom;

fn stop_word(stop: Stop) -> &'static [u8]
    ensures { result.now ≡ stop_bytes (stop_of stop) }
{
    match stop {
        Stop::Undefined => b": undefined",
        Stop::Path => b": path",
        Stop::Circular => b": circular",
        Stop::Depth => b": depth",
        Stop::Length => b": length",
    }
}

fn outcome_word(outcome: Outcome) -> &'static [u8]
    ensures { result.now ≡ word_bytes outcome }
{
    match outcome {
        Outcome::Idle => b"",
        Outcome::Unfinished => b": unfinished",
        Outcome::Value => b"=",
        Outcome::Stopped(stop) => stop_word(stop),
    }
}

impl Pen<'_> {
    fn put_question(&mut self, names: &Names, question: &Question)
        ensures { Spells self.old (question_spelled names.now question.now) self.new }
    {
        self.put(names.node_name(question.node()).unwrap_or(&[]));
        self.put(b":<");
        self.put_path(names, question.path());
        self.put(b">");
    }

    fn put_said(&mut self, names: &Names, outcome: Outcome, value: &[Atom])
        ensures { Spells self.old (said_by outcome (names_of (atoms_in names.now) value.now)) self.new }
    {
        self.put(outcome_word(outcome));
        self.put_value(names, value);
    }

    fn put_answer(&mut self, answer: Answer)
        ensures { Spells self.old (answer_bytes answer.entry) self.new }
    {
        self.put_question(answer.names, answer.question);
        self.put(b" ");
        self.put_said(answer.names, answer.outcome, answer.value);
        self.put(b" [");
        self.put_number(answer.steps as usize);
        self.put(b"]\n");
    }

    fn put_placed(&mut self, number: u8, place: usize)
        ensures { Spells self.old (placed_bytes number place) self.new }
    {
        self.put_number(number as usize);
        self.put(b" ");
        self.put_number(place);
        self.put(b"\n");
    }

    fn put_refused(&mut self, refused: Refused)
        ensures { Spells self.old (refused_bytes refused.entry) self.new }
    {
        self.put(refused.title);
        self.put(refused.mark);
        self.put_placed(refused.number, refused.place);
    }

    /// Spells a line.
    pub(crate) fn put_line(&mut self, content: Content)
        ensures { Spells self.old (bytes_of content.entry) self.new }
    {
        match content {
            Content::Answer(answer) => self.put_answer(answer),
            Content::Refused(refused) => self.put_refused(refused),
        }
    }
}
