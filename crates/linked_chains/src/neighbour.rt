ghost use Rattle.std.specs.Prelude.{◌≡◌, ◌+◌, ◌<◌, ◌^◌, Some, None};

use std::marker::Model;

/// The node beside one in its chain, if there is one. It is one number, 0 for none and else the name and one, and takes half
/// the memory of an `Option`.
#[derive(Clone, Copy)]
pub(crate) struct Neighbour {
    after_name: usize,
}

impl Model for Neighbour {
    ghost use Rattle.std.specs.Prelude.{ℕ, Option};

    ghost Value = { Option ℕ };

    ghost use Rattle.linked_chains.specs.Neighbours.{named, number, named_back};

    ghost view = { λ n. named n.after_name };

    ghost inverse = { λ o. record { after_name = number o } };

    ghost inverse_ok = { λ a h. named_back a };
}

impl Neighbour {
    // No node.
    #[inline(always)]
    pub(crate) fn none() -> Neighbour
        ensures { result ≡ None }
    {
        Neighbour { after_name: 0 }
    }

    // The node of a name.
    #[inline(always)]
    pub(crate) fn some(name: usize) -> Neighbour
        requires { name + 1 < 2 ^ 64 }
        ensures { result ≡ Some name }
    {
        Neighbour {
            after_name: name + 1,
        }
    }

    // The name of the node, if there is one.
    #[inline(always)]
    pub(crate) fn name(self) -> Option<usize>
        ensures { result ≡ self }
    {
        self.after_name.checked_sub(1)
    }
}
