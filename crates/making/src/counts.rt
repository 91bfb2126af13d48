// How far the making is: the table's counts, the open links, the path in hand and the stack.
ghost use Rattle.std.specs.Prelude.{◌≡◌, ◌-◌};
ghost use Rattle.making.specs.Numbers.{ended_in, topped_in};

use aldlf::State;

// `links` edges of open paths, outer ones first, of which `base` belong to outer paths; `states` of the path in hand, and where its part made last starts and ends.
// `top` numbers are on the stack.
#[derive(Clone, Copy, Default)]
pub(crate) struct Counts {
    pub(crate) nodes: u8,
    pub(crate) automata: u8,
    pub(crate) edges: u16,
    pub(crate) links: u16,
    pub(crate) states: u8,
    pub(crate) base: u8,
    pub(crate) entry: State,
    pub(crate) exit: State,
    pub(crate) top: usize,
}

impl Counts {
    // The path in hand with its states, and the ends of the part made last.
    pub(crate) fn with_ends(self, states: u8, entry: State, exit: State) -> Counts
        ensures { result ≡ ended_in states entry exit self }
    {
        Counts {
            states,
            entry,
            exit,
            ..self
        }
    }

    // The same counts with another number on the stack.
    pub(crate) fn with_top(self, top: usize) -> Counts
        ensures { result ≡ topped_in top self }
    {
        Counts { top, ..self }
    }

    // The last node.
    pub(crate) fn newest(self) -> u8
        ensures { result ≡ self.nodes - 1 }
    {
        self.nodes.saturating_sub(1)
    }
}
