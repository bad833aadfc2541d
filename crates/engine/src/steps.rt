// Steps of a machine over a store.
ghost use Rattle.std.specs.Prelude.{◌≡◌, ◌+◌, ◌-◌, ◌*◌, ◌<◌, ◌≤◌};
ghost use Rattle.machine.specs.Bounds.{work_left, asked_limit};
ghost use Rattle.engine.specs.States.{progress_of, positions_in};
ghost use Rattle.engine.specs.Between.{next_item, Rests, TakesAnItem, TakesAStep, TakesSteps};

use crate::inner::Machine;
use crate::table::{Phase, Worked};
use stores::Store;
use terms::Item;

impl Machine {
    /// The item that is wanted next.
    fn wanted<S: Store>(&self, store: &S) -> Option<Item>
        requires { self.now.phase ≡ Phase.Works }
        ensures { result ≡ next_item (S.Store.means store.now).map (positions_in self.now) }
    {
        let top = self.top();
        let path = top.at.path.as_slice();
        store.item(top.at.node, &path[..top.left], top.place)
    }

    /// Works one item. There is a place for the inside of every path of a map within the limits; a machine that had none would stop.
    fn turn<S: Store>(&mut self, store: &S)
        requires works { self.old.phase ≡ Phase.Works }
        ensures less { work_left (progress_of self.new) < work_left (progress_of self.old) }
        ensures took { TakesAnItem (S.Store.means store.now) self.old self.new }
    {
        let item = self.wanted(store);
        if self.has_room(item) {
            self.take(item);
        } else {
            self.overflow();
        }
    }

    /// One step: the look-up for the question asked, and the work that follows it. Says how often the store was asked.
    // Kept: the items are counted since the number is the answer; the loop ends by the phase.
    fn step<S: Store>(&mut self, store: &S) -> u64
        requires asks { self.old.phase ≡ Phase.Asks }
        ensures bounded { result ≤ asked_limit }
        ensures rests { Rests self.new.phase }
        ensures steps { TakesAStep (S.Store.means store.now) self.old self.new result }
    {
        let left = store.find(self.asked.node, self.asked.path.as_slice());
        self.found(left);
        let mut items: u64 = 0;
        while let Phase::Works = self.phase {
            self.turn(store);
            items += 1;
        }
        items + 1
    }

    /// Takes steps until so many are taken or the end is reached.
    pub fn work<S: Store>(&mut self, store: &S, granted: u32) -> Worked
        ensures most { result.steps ≤ granted }
        ensures bounded { result.requests ≤ asked_limit * result.steps }
        ensures went { TakesSteps (S.Store.means store.now) granted self.old self.new result }
    {
        let mut requests: u64 = 0;
        for steps in 0..granted {
            let Phase::Asks = self.phase else {
                return Worked { steps, requests };
            };
            requests += self.step(store);
        }
        Worked {
            steps: granted,
            requests,
        }
    }
}
