// The names that rows open, and how many may be in force: [10.6].
ghost use Rattle.std.specs.Prelude.{◌≡◌};
ghost use Rattle.syntax.specs.Names.{opened_by, names_fit, lanes_fit, Bounded};

use words::groups::{is_loop, is_map};
use words::kinds::*;

// How many names of each kind are in force. `Bounded` is no invariant of the type: question 6 is put to what a row opens, which may pass it (`ask_row`).
#[derive(Clone, Copy, Debug, PartialEq, Eq)]
pub struct Names {
    pub inputs: usize,
    pub variables: usize,
    pub counters: usize,
    pub regions: usize,
    pub lanes: usize,
}

impl Names {
    // The names in force and those that a row opens for its last operand; [18.15] a `lanes` counts among the `lanes` around.
    #[tactic(auto, unfolding(crate::specs::Names::opened_by, words::specs::Groups::one_of))]
    pub fn opened(self, kind: u8, number: usize) -> Names
        requires { Bounded self }
        ensures { result ≡ opened_by kind number self }
    {
        match kind {
            WORD_PLAN | WORD_LOOPS => Names {
                inputs: number,
                ..self
            },
            WORD_REDSEQ => Names {
                variables: self.variables + 2,
                ..self
            },
            WORD_NEW => Names {
                regions: self.regions + 1,
                ..self
            },
            WORD_LANES => Names {
                counters: self.counters + 1,
                lanes: self.lanes + 1,
                ..self
            },
            _ if is_loop(kind) => Names {
                counters: self.counters + 1,
                ..self
            },
            _ if is_map(kind) => Names {
                variables: self.variables + 1,
                ..self
            },
            _ => self,
        }
    }

    // [13.9] [13.10] [13.11] At most 16 variables, 32 counters and 256 regions?
    pub fn names_fit(self) -> bool
        ensures { result ≡ names_fit self }
    {
        self.variables <= 16 && self.counters <= 32 && self.regions <= 256
    }

    // [18.15] At most one `lanes`?
    pub fn lanes_fit(self) -> bool
        ensures { result ≡ lanes_fit self }
    {
        self.lanes <= 1
    }
}
