// Where an index stands.

ghost use Rattle.std.specs.Prelude.{◌≡◌, ◌+◌, ◌<◌, ◌^◌, Some, IsSome, sum_by};
ghost use Rattle.quicklist.specs.Nodes.{IsPlace, count_of};

use crate::node::Node;
use std::collections::VecDeque;

fn find_from_front(nodes: &VecDeque<Node>, index: usize) -> (usize, usize)
    requires inside { index < sum_by count_of nodes.now.items }
    requires small { sum_by count_of nodes.now.items < 2 ^ 64 }
    ensures { IsPlace nodes.now.items index result.0 result.1 }
{
    let mut before = 0;
    for k in 0..nodes.len() {
        let count = nodes[k].count as usize;
        if index - before < count {
            return (k, index - before);
        }
        before += count;
    }
    unreachable!()
}

fn find_from_back(nodes: &VecDeque<Node>, index: usize, len: usize) -> (usize, usize)
    requires inside { index < sum_by count_of nodes.now.items }
    requires whole { len ≡ sum_by count_of nodes.now.items }
    ensures { IsPlace nodes.now.items index result.0 result.1 }
{
    let mut end = len;
    for k in (0..nodes.len()).rev() {
        end -= nodes[k].count as usize;
        if end <= index {
            return (k, index - end);
        }
    }
    unreachable!()
}

/// The place that there is.
pub(crate) fn there<T: Copy>(place: Option<T>) -> T
    requires { IsSome place }
    ensures { place ≡ Some result }
{
    match place {
        Some(found) => found,
        None => unreachable!(),
    }
}

/// The node in which the element at an index stands, and the element's index in it. The search begins at the nearer end.
pub(crate) fn find(nodes: &VecDeque<Node>, index: usize, len: usize) -> (usize, usize)
    requires inside { index < len }
    requires whole { len ≡ sum_by count_of nodes.now.items }
    ensures { IsPlace nodes.now.items index result.0 result.1 }
{
    if index < len / 2 {
        find_from_front(nodes, index)
    } else {
        find_from_back(nodes, index, len)
    }
}
