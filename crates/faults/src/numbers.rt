// The number, place and layer of a fault.
ghost use Rattle.std.specs.Prelude.{◌≡◌};
ghost use Rattle.faults.specs.Grammar as grammar;
ghost use Rattle.faults.specs.Loads.{number, place, grammar_layer_lem, layer, layer_of};

use crate::kinds::{GrammarFault, Layer, LoadFault};

/// The bytes that a text has at most.
pub const TEXT_BYTES: usize = 65_536;

impl GrammarFault {
    fn number(self) -> u8
        ensures { result ≡ grammar.number self }
    {
        match self {
            GrammarFault::Word(e) => e.refusal.number(),
            GrammarFault::Own(refusal, _) => refusal.number(),
            GrammarFault::Name(_) => 10,
            GrammarFault::Keeper(e) => e.refusal.number(),
        }
    }

    fn place(self) -> usize
        ensures { result ≡ grammar.place self }
    {
        match self {
            GrammarFault::Word(e) => e.place,
            GrammarFault::Own(_, place) => place,
            GrammarFault::Name(e) => e.place,
            GrammarFault::Keeper(e) => e.place,
        }
    }

    fn layer(self) -> Layer
        ensures value { result ≡ grammar_layer_lem self }
        ensures by_number { result ≡ layer_of (grammar.number self) }
    {
        match self {
            GrammarFault::Word(_) => Layer::Words,
            GrammarFault::Own(_, _) => Layer::Grammar,
            GrammarFault::Name(_) => Layer::Names,
            GrammarFault::Keeper(_) => Layer::Keeper,
        }
    }
}

impl LoadFault {
    pub fn number(self) -> u8
        ensures { result ≡ number self }
    {
        match self {
            LoadFault::TooLong => 11,
            LoadFault::Grammar(fault) => fault.number(),
        }
    }

    pub fn place(self) -> usize
        ensures { result ≡ place self }
    {
        match self {
            LoadFault::TooLong => TEXT_BYTES,
            LoadFault::Grammar(fault) => fault.place(),
        }
    }

    /// The layer, which the number alone decides.
    pub fn layer(self) -> Layer
        ensures value { result ≡ layer self }
        ensures by_number { result ≡ layer_of (number self) }
    {
        match self {
            LoadFault::TooLong => Layer::Loader,
            LoadFault::Grammar(fault) => fault.layer(),
        }
    }
}
