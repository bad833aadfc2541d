// What the answer of a look-up and an item do to a machine.
ghost use Rattle.std.specs.Prelude.{◌≡◌, ◌<◌, [], IfOk, OnOk, Some, None, vec_len};
ghost use Rattle.rules.specs.Evaluation.{among};
ghost use Rattle.machine.specs.Steps.{Built, asks, has, stops};
ghost use Rattle.machine.specs.Bounds.{inside_limit};
ghost use Rattle.terms.specs.Limits.{item_limit, open_limit};
ghost use Rattle.machine.specs.Items.{onward, reached, took, questions_at};
ghost use Rattle.sentences.specs.Kept.{question_of, position_of};
ghost use Rattle.engine.specs.States.{progress_of, posed, asked_or_stopped, built_in, positions_in, top_onward, PlaceInRange, WantedInRange, Room, roomy, Top, LeftWithin, answered, Gathered};
ghost use Rattle.terms.specs.declared.items.Item.TheVariants as item;
ghost use Rattle.rules.specs.Outcomes as outcomes;

use crate::inner::Machine;
use crate::table::{Phase, Stop};
use path::Path;
use sentences::{Inside, Open, Question};
use std::alloc::{AllocError, Global};
use terms::limits::{NESTING, OPEN_SENTENCES, VALUE_ATOMS};
use terms::{Atom, Item, Node, Quoting};

/// The insides of paths that are built at a time: of each open sentence as many as paths nest.
const INSIDES: usize = OPEN_SENTENCES * NESTING;

/// One item further.
fn advance(top: &mut Open)
    requires { top.old.place < item_limit }
    ensures { position_of top.new ≡ onward (position_of top.old) }
{
    top.place += 1;
}

// Kept: in which phase the machine is and where its last sentence stands change within these methods, so that clauses say it and no type.
impl Machine {
    /// Whether a sentence is open for the same question.
    fn is_open(&self, question: &Question) -> bool
        ensures { result ≡ among (question_of question.now) (questions_at (positions_in self.now)) }
    {
        self.table.iter().any(|open| open.is_for(question))
    }

    /// Tests a new question, for circle and depth in turn.
    fn test(&self, question: &Question) -> Result<(), Stop>
        ensures posed { asked_or_stopped question.now result (positions_in self.now) (built_in self.now) ≡ posed (Some question.now) (positions_in self.now) (built_in self.now) }
        ensures room { OnOk result (vec_len self.now.table < open_limit) }
    {
        if self.is_open(question) {
            return Err(Stop::Circular);
        }
        if self.table.len() >= OPEN_SENTENCES {
            return Err(Stop::Depth);
        }
        Ok(())
    }

    /// Tests a new question, and asks it.
    fn pose(&mut self, asked: Option<Question>)
        ensures { progress_of self.new ≡ reached (posed asked (positions_in self.old) (built_in self.old)) }
    {
        let Some(question) = asked else {
            self.phase = Phase::Stops(Stop::Path);
            return;
        };
        match self.test(&question) {
            Ok(()) => {
                self.phase = Phase::Asks;
                self.asked = question;
            }
            Err(stop) => self.phase = Phase::Stops(stop),
        }
    }

    /// An atom goes to the innermost inside, or to the value.
    fn gather(&mut self, atom: Atom) -> Result<(), Stop>
        ensures table { positions_in self.new ≡ positions_in self.old }
        ensures phase { self.new.phase ≡ self.old.phase }
        ensures gathered { Gathered result (built_in self.old) atom (built_in self.new) }
    {
        if let Some(inside) = self.insides.last_mut() {
            inside.atoms.push(atom)?;
            Ok(())
        } else if self.value.len() < VALUE_ATOMS {
            self.value.push_reserved(atom);
            Ok(())
        } else {
            Err(Stop::Length)
        }
    }

    /// The last sentence opened goes on.
    fn move_on(&mut self)
        requires { PlaceInRange (positions_in self.old) }
        ensures table { positions_in self.new ≡ top_onward (positions_in self.old) }
        ensures built { built_in self.new ≡ built_in self.old }
        ensures phase { self.new.phase ≡ self.old.phase }
    {
        if let Some(top) = self.table.last_mut() {
            advance(top);
        }
    }

    fn put(&mut self, atom: Atom)
        requires works { self.old.phase ≡ Phase.Works }
        requires place { PlaceInRange (positions_in self.old) }
        ensures { progress_of self.new ≡ took (Some (item.Atom atom)) (progress_of self.old) }
    {
        match self.gather(atom) {
            Ok(()) => self.move_on(),
            Err(stop) => self.phase = Phase::Stops(stop),
        }
    }

    fn open_path(&mut self, quoting: Quoting, node: Option<Node>)
        requires works { self.old.phase ≡ Phase.Works }
        requires place { PlaceInRange (positions_in self.old) }
        requires room { vec_len self.old.insides < inside_limit }
        ensures { progress_of self.new ≡ took (Some (item.Open quoting node)) (progress_of self.old) }
    {
        self.insides.push_reserved(Inside {
            quoting,
            node,
            atoms: Path::new(),
        });
        self.move_on();
    }

    fn ask_node(&mut self, quoting: Quoting, node: Node)
        requires works { self.old.phase ≡ Phase.Works }
        requires place { PlaceInRange (positions_in self.old) }
        ensures { progress_of self.new ≡ took (Some (item.Node quoting node)) (progress_of self.old) }
    {
        if let Some(top) = self.table.last_mut() {
            let asked = top.node_asks(quoting, node);
            advance(top);
            self.pose(asked);
        }
    }

    fn close_path(&mut self)
        requires works { self.old.phase ≡ Phase.Works }
        requires place { PlaceInRange (positions_in self.old) }
        ensures { progress_of self.new ≡ took (Some item.Close) (progress_of self.old) }
    {
        let Some(inside) = self.insides.pop() else {
            self.phase = Phase::Stops(Stop::Undefined);
            return;
        };
        if let Some(top) = self.table.last_mut() {
            let asked = top.path_asks(inside);
            advance(top);
            self.pose(asked);
        }
    }

    fn close_sentence(&mut self)
        requires works { self.old.phase ≡ Phase.Works }
        ensures { progress_of self.new ≡ took None (progress_of self.old) }
    {
        let below = self.table.len() - 1;
        self.table.truncate(below);
        if below == 0 {
            self.phase = Phase::Has;
        }
    }

    /// Takes the next item of the last sentence opened, or that there is none.
    pub(crate) fn take(&mut self, item: Option<Item>)
        requires place { WantedInRange item (positions_in self.old) }
        requires room { Room item (vec_len self.old.insides) }
        ensures { progress_of self.new ≡ took item (progress_of self.old) }
    {
        match (self.phase, item) {
            (Phase::Works, None) => self.close_sentence(),
            (Phase::Works, Some(Item::Atom(atom))) => self.put(atom),
            (Phase::Works, Some(Item::Node(quoting, node))) => self.ask_node(quoting, node),
            (Phase::Works, Some(Item::Open(quoting, node))) => self.open_path(quoting, node),
            (Phase::Works, Some(Item::Close)) => self.close_path(),
            (_, _) => {}
        }
    }

    /// Whether there is a place for the inside of one more path, if the item opens one.
    pub(crate) fn has_room(&self, item: Option<Item>) -> bool
        ensures { result ≡ roomy item (vec_len self.now.insides) }
    {
        match item {
            Some(Item::Open(_, _)) => self.insides.len() < INSIDES,
            _ => true,
        }
    }

    /// Ends for want of a place.
    pub(crate) fn overflow(&mut self)
        ensures { progress_of self.new ≡ reached (stops outcomes.Stop.path) }
    {
        self.phase = Phase::Stops(Stop::Path);
    }

    /// Takes the answer of the look-up for the question asked.
    pub(crate) fn found(&mut self, left: Option<usize>)
        requires within { LeftWithin left self.old.asked }
        ensures { progress_of self.new ≡ answered left (progress_of self.old) }
    {
        match (self.phase, left) {
            (Phase::Asks, Some(left)) => {
                self.table.push_reserved(Open {
                    at: self.asked,
                    left,
                    place: 0,
                });
                self.phase = Phase::Works;
            }
            (Phase::Asks, None) => self.phase = Phase::Stops(Stop::Undefined),
            (_, _) => {}
        }
    }

    /// The last sentence opened.
    pub(crate) fn top(&self) -> &Open
        requires { self.now.phase ≡ Phase.Works }
        ensures { Top result.now (positions_in self.now) }
    {
        &self.table[self.table.len() - 1]
    }

    /// Asks a first question.
    pub fn restart(&mut self, first: Question)
        ensures progress { progress_of self.new ≡ reached (asks (question_of first) [] (Built.whole [])) }
        ensures phase { self.new.phase ≡ Phase.Asks }
    {
        self.phase = Phase::Asks;
        self.asked = first;
        self.table.clear();
        self.insides.clear();
        self.value.clear();
    }

    /// A machine with room for all that it may hold; it holds no atom.
    pub fn new(heap: Global) -> Result<Machine, AllocError>
        ensures { IfOk result (λ m. progress_of m ≡ reached (has [])) }
    {
        let asked = Question::first(Node(0), Path::new());
        let table = Vec::with_capacity(heap, OPEN_SENTENCES)?;
        let insides = Vec::with_capacity(heap, INSIDES)?;
        let value = Vec::with_capacity(heap, VALUE_ATOMS)?;
        Ok(Machine {
            phase: Phase::Has,
            asked,
            table,
            insides,
            value,
        })
    }
}
