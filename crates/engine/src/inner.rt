// The plain inner machine: where it stands, the question that is asked next, the open sentences, the insides of paths and the value.
ghost use Rattle.std.specs.Prelude.{◌≤◌, vec_len, vec_capacity};
ghost use Rattle.terms.specs.Limits.{open_limit, value_limit};
ghost use Rattle.machine.specs.Bounds.{inside_limit};
ghost use Rattle.engine.specs.Phases.{least_open, most_open};

use crate::table::Phase;
use sentences::{Inside, Open, Question};
use terms::Atom;

// Kept: the three lists hold different things, and the memory of each is got when the machine is made.
#[derive(Drop)]
pub struct Machine {
    pub(crate) phase: Phase,
    pub(crate) asked: Question,
    pub(crate) table: Vec<Open>,
    pub(crate) insides: Vec<Inside>,
    pub(crate) value: Vec<Atom>,
    ghost sentences: { open_limit ≤ vec_capacity table },
    ghost paths: { inside_limit ≤ vec_capacity insides },
    ghost atoms: { value_limit ≤ vec_capacity value },
    ghost most: { vec_len table ≤ most_open phase },
    ghost least: { least_open phase ≤ vec_len table },
}
