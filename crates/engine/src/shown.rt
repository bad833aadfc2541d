// What a machine shows.
ghost use Rattle.std.specs.Prelude.{◌≡◌};

use crate::inner::Machine;
use crate::table::Phase;
use terms::Atom;

impl Machine {
    /// Where the evaluation stands.
    pub fn phase(&self) -> Phase
        ensures { result ≡ self.now.phase }
    {
        self.phase
    }

    /// The value so far.
    pub fn value(&self) -> &[Atom]
        ensures { result.now ≡ self.now.value.items }
    {
        &self.value
    }
}
