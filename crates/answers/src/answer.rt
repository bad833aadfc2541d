// Answering a line of input.
// Kept: a page and how far it is filled are passed apart, as the device has them.
ghost use Rattle.std.specs.Prelude.{◌≡◌, true};
ghost use Rattle.path.specs.Atoms.{atoms_of};
ghost use Rattle.questions.specs.Lines.{names_of, asks, read_line, names_left};
ghost use Rattle.evaluator.specs.Calls.{fits};
ghost use Rattle.lines.specs.Refusals.{numbered};
ghost use Rattle.answers.specs.Answers.{answer_to, filled_by, page_by, QuestionByTheRules, AnsweredByTheRules};

use crate::results::Answered;
use engine::Machine;
use evaluator::{Call, evaluate};
use lines::{write_answer, write_refused};
use names::Names;
use questions::{Asked, read_question};
use stores::Store;
use terms::limits::STEPS;

fn answer_question<S: Store>(
    asked: Asked,
    names: &Names,
    machine: Machine,
    store: &S,
    page: &mut [u8],
    fill: usize,
) -> Answered
    requires { fits asked.node (atoms_of asked.path) ≡ true }
    ensures end { numbered result.end ≡ filled_by (answer_to (S.Store.means store.now).map (asks asked.node (atoms_of asked.path) (names_of names.now))) page.old fill }
    ensures page { page.new ≡ page_by (answer_to (S.Store.means store.now).map (asks asked.node (atoms_of asked.path) (names_of names.now))) page.old fill }
    ensures right { QuestionByTheRules (S.Store.means store.now).map asked.node (atoms_of asked.path) }
{
    let path = asked.path.as_slice();
    let calls = [Call::Begin(asked.node, path), Call::Work(STEPS)];
    let evaluator = evaluate(machine, store, &calls);
    let end = write_answer(&evaluator, names, page, fill);
    let (_, machine) = evaluator.into_parts();
    Answered { machine, end }
}

/// Answers a line: reads it, works its question with all steps granted, and writes the answer into the rest of a page.
pub fn answer_line<S: Store>(
    line: &[u8],
    names: &mut Names,
    machine: Machine,
    store: &S,
    page: &mut [u8],
    fill: usize,
) -> Answered
    ensures end { numbered result.end ≡ filled_by (answer_to (S.Store.means store.now).map (read_line (names_of names.old) line.now)) page.old fill }
    ensures page { page.new ≡ page_by (answer_to (S.Store.means store.now).map (read_line (names_of names.old) line.now)) page.old fill }
    ensures names { names_of names.new ≡ names_left (names_of names.old) (read_line (names_of names.old) line.now) }
    ensures right { AnsweredByTheRules (S.Store.means store.now).map (names_of names.old) line.now }
{
    match read_question(line, names) {
        Ok(None) => Answered {
            machine,
            end: Ok(fill),
        },
        Ok(Some(asked)) => answer_question(asked, names, machine, store, page, fill),
        Err(fault) => Answered {
            machine,
            end: write_refused(fault.number(), fault.place(), page, fill),
        },
    }
}
