ghost use Rattle.std.specs.Prelude.{◌≡◌, ◌≤◌, ◌∷◌, [], OnOk, OnErr, vec_len};

use std::alloc::{AllocError, Global};
use std::collections::LinkedList;
use std::marker::Model;
use table_model::FibResult;

/// The place of one result in a list of those that are due.
#[derive(Drop)]
pub struct ResultNode {
    node: LinkedList<FibResult>,
}

impl Model for ResultNode {
    ghost use Rattle.std.specs.Prelude.{◌≡◌, List, length};
    ghost use Rattle.table_model.specs.declared.results.FibResult.{FibResult};

    ghost Value = { List FibResult };

    ghost view = { λ p. p.node };

    ghost invariant = { λ p. length p.node ≡ 1 };
}

impl ResultNode {
    fn new(alloc: Global) -> Result<ResultNode, AllocError> {
        let mut node = LinkedList::new(alloc);
        node.push_back(FibResult {
            id: 0,
            failed: None,
            now: 0,
        })?;
        Ok(ResultNode { node })
    }

    /// The place as a list of this result.
    pub fn filled(self, told: FibResult) -> LinkedList<FibResult>
        ensures { result ≡ told ∷ [] }
    {
        let ResultNode { mut node } = self;
        if let Some(first) = node.front_mut() {
            *first = told;
        }
        node
    }
}

/// Adds places until there are so many. Where memory is wanting, those that were added go again.
pub fn add_result_nodes(
    alloc: Global,
    places: &mut Vec<ResultNode>,
    count: usize,
) -> Result<(), AllocError>
    requires { vec_len places.old ≤ count }
    ensures ok { OnOk result (vec_len places.new ≡ count) }
    ensures err { OnErr result (vec_len places.new ≡ vec_len places.old) }
{
    let had = places.len();
    if let Err(refused) = grow_to(alloc, places, count) {
        places.truncate(had);
        return Err(refused);
    }
    Ok(())
}

fn grow_to(alloc: Global, places: &mut Vec<ResultNode>, count: usize) -> Result<(), AllocError>
    requires { vec_len places.old ≤ count }
    ensures ok { OnOk result (vec_len places.new ≡ count) }
    ensures kept { vec_len places.old ≤ vec_len places.new }
{
    'places: while places.len() < count {
        let place = ResultNode::new(alloc)?;
        places.push(place)?;
    }
    Ok(())
}
