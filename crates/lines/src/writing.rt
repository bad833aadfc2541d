// Lines written into the rest of a page.
// Kept: a page and how far it is filled are passed apart, as the device has them; so are number and place, which faults of any layer have.
ghost use Rattle.std.specs.Prelude.{◌≡◌};
ghost use Rattle.lines.specs.Bytes.{line, refusal_bytes, title_bytes};
ghost use Rattle.lines.specs.Lengths.{LineWithinLimit};
ghost use Rattle.lines.specs.Lines.{bytes_of, line_by};
ghost use Rattle.lines.specs.Pages.{filled, page_after};
ghost use Rattle.lines.specs.Refusals.{numbered};

use crate::content::{Answer, Content, Refused};
use crate::known::all_named;
use crate::pen::Pen;
use crate::refusals::LineRefusal;
use evaluator::Evaluator;
use names::Names;

/// Writes a line if it fits, and says how far the page is filled then. The line is measured on an empty page.
fn write_line(content: Content, page: &mut [u8], fill: usize) -> Result<usize, LineRefusal>
    ensures end { numbered result ≡ filled (line (bytes_of content.entry)) page.old fill }
    ensures page { page.new ≡ page_after (line (bytes_of content.entry)) page.old fill }
{
    let mut measure = Pen::new(&mut [], fill);
    measure.put_line(content);
    let end = measure.at;
    if end > page.len() {
        return Err(LineRefusal::NoRoom);
    }
    let mut pen = Pen::new(page, fill);
    pen.put_line(content);
    Ok(end)
}

/// Writes the line of what an evaluator shows.
pub fn write_answer<'a, S>(
    evaluator: &'a Evaluator<S>,
    names: &'a Names,
    page: &mut [u8],
    fill: usize,
) -> Result<usize, LineRefusal>
    ensures end { numbered result ≡ filled (line_by names.now evaluator.now) page.old fill }
    ensures page { page.new ≡ page_after (line_by names.now evaluator.now) page.old fill }
    ensures limit { LineWithinLimit names.now evaluator.now }
{
    let Some(question) = evaluator.question() else {
        return Err(LineRefusal::Idle);
    };
    let value = evaluator.value();
    if !all_named(names, question.node(), question.path(), value) {
        return Err(LineRefusal::NoName);
    }
    let answer = Answer {
        names,
        question,
        outcome: evaluator.outcome(),
        value,
        steps: evaluator.steps(),
    };
    write_line(Content::Answer(answer), page, fill)
}

/// Writes the line of a question that is refused.
pub fn write_refused(
    number: u8,
    place: usize,
    page: &mut [u8],
    fill: usize,
) -> Result<usize, LineRefusal>
    ensures end { numbered result ≡ filled (line (refusal_bytes number place)) page.old fill }
    ensures page { page.new ≡ page_after (line (refusal_bytes number place)) page.old fill }
{
    let question = Refused {
        title: b"?",
        mark: b" ",
        number,
        place,
    };
    write_line(Content::Refused(question), page, fill)
}

/// Writes the line of a text that is refused, with its title.
pub fn write_text_refused(
    title: &[u8],
    number: u8,
    place: usize,
    page: &mut [u8],
    fill: usize,
) -> Result<usize, LineRefusal>
    ensures end { numbered result ≡ filled (line (title_bytes title.now number place)) page.old fill }
    ensures page { page.new ≡ page_after (line (title_bytes title.now number place)) page.old fill }
{
    let text = Refused {
        title,
        mark: b" : ",
        number,
        place,
    };
    write_line(Content::Refused(text), page, fill)
}
