// Why a text is not loaded: a fault of each layer, with the lower one whole inside it.
#![tactic(auto)]

mod keeper_fault;
mod kinds;
mod numbers;

pub use keeper_fault::KeeperFault;
pub use kinds::{GrammarFault, GrammarRefusal, Layer, LoadFault, NameFault};
pub use numbers::TEXT_BYTES;
