// A module: its node, and the tally of the replies that its calls were given.
#![tactic(auto)]

ghost use Rattle.std.specs.Prelude.{◌≡◌};
ghost use Rattle.module.specs.Histories.{fresh_module};

use crate::tally::Tally;
use node::Node;

pub mod calls;
pub mod tally;
pub mod values;

#[derive(Clone, Copy)]
pub struct Module {
    pub node: Node,
    pub tally: Tally,
}

impl Module {
    // Before any call.
    pub fn fresh() -> Module
        ensures { result ≡ fresh_module }
    {
        Module {
            node: Node::fresh(),
            tally: Tally::zero(),
        }
    }
}
