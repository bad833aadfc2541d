// How an evaluator is made, and what it is made of is given back.
ghost use Rattle.std.specs.Prelude.{◌≡◌, IfOk};
ghost use Rattle.evaluator.specs.Promise.{NewOverAnyStore};

use super::Evaluator;
use engine::Machine;
use std::alloc::{AllocError, Global};

impl<S> Evaluator<S> {
    /// A new evaluator, idle, in the memory of a machine.
    pub fn over(machine: Machine, store: S) -> Evaluator<S>
        ensures { NewOverAnyStore store result }
    {
        Evaluator {
            store,
            machine,
            question: None,
            granted: 0,
            steps: 0,
        }
    }

    /// The store, and the machine to be used again.
    pub fn into_parts(self) -> (S, Machine)
        ensures { result.0 ≡ self.store }
    {
        let Evaluator { store, machine, .. } = self;
        (store, machine)
    }

    /// The store.
    pub fn into_store(self) -> S
        ensures { result ≡ self.store }
    {
        let (store, _machine) = self.into_parts();
        store
    }
}

impl<S: Drop> Evaluator<S> {
    /// A new evaluator, idle, with all the memory that it will want.
    pub fn new(heap: Global, store: S) -> Result<Evaluator<S>, AllocError>
        ensures { IfOk result (λ e. NewOverAnyStore store e) }
    {
        let machine = Machine::new(heap)?;
        Ok(Evaluator::over(machine, store))
    }
}
