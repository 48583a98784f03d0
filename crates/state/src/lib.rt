// What is known and planned, held by node number.
#![tactic(auto)]

ghost use Rattle.std.specs.Prelude.{◌≡◌, List, true, false, ℕ, ◌+◌, ◌*◌, ◌≤◌, ◌<◌, get_or, replicate};
ghost use Rattle.ir.specs.Limits.{max_nodes};
ghost use Rattle.graph.specs.Graph.{Graph};
ghost use Rattle.model.specs.Maps.{is_some};
ghost use Rattle.model.specs.Inputs.{size};
ghost use Rattle.model.specs.Trial.{State, empty, add};
ghost use Rattle.state.specs.Held.{known_of, Above};
ghost use Rattle.state.specs.Planned.{Holds};
ghost use Rattle.state.specs.Trials.{offer_of, Within};
ghost use Rattle.state.specs.Stores.{Learnt, Planned};

use encoding::words::Words;
use encoding::{values, words};
use ir::limit;
use value::Value;

// A known value is held as the kind of its record and four words; this kind says that nothing is known.
pub const UNKNOWN: u8 = 0;

pub const WORDS: usize = 4096;

const WIDTH: usize = 4;

// What is planned of a node is one of these, with a detail: the number of the chosen wire, or the taken port.
pub const KEPT: u8 = 0;

pub const BECOME_LITERAL: u8 = 1;

pub const SHORT_CIRCUIT: u8 = 2;

pub const TRUNCATE: u8 = 3;

// What a trial gives a node: a value, a plan, both, or nothing. A wire is named by its number.
#[derive(Clone, Copy)]
pub enum Trial {
    Nothing,
    Known(Value),
    BecomeLiteral(Value),
    ShortCircuit { chosen: u16 },
    ShortCircuitKnown { chosen: u16, value: Value },
    Truncate { taken: u8 },
}

// What is known of each node: the kind of its value's record, and the four words that hold the value.
#[derive(Drop)]
pub struct Known {
    pub kinds: [u8; limit::NODES],
    pub words: [u64; WORDS],
}

impl Known {
    // Nothing is known.
    pub fn new() -> Self
        ensures kinds { result.kinds ≡ replicate max_nodes 0 }
        ensures words { result.words ≡ replicate (4 * max_nodes) 0 }
    {
        Known {
            kinds: [UNKNOWN; limit::NODES],
            words: [0u64; WORDS],
        }
    }

    #[tactic(auto, unfolding(crate::specs::Held::known_of, crate::specs::Held::held, model::specs::Maps::is_some))]
    pub fn is_known(&self, n: usize) -> bool
        requires { n < max_nodes }
        ensures { (words : List ℕ) → result ≡ is_some (known_of self.now.kinds words n) }
    {
        self.kinds[n] != UNKNOWN
    }

    // The first of the words that hold what is known of a node: all of a scalar.
    pub fn first_word(&self, n: usize) -> u64
        requires { n < max_nodes }
        ensures { result ≡ get_or self.now.words (4 * n) 0 }
    {
        self.words[WIDTH * n]
    }

    // The words that hold what is known of a node.
    pub fn words_at(&self, n: usize) -> Words
        requires { n < max_nodes }
        ensures { result ≡ record { a = get_or self.now.words (4 * n) 0; b = get_or self.now.words (4 * n + 1) 0; c = get_or self.now.words (4 * n + 2) 0; d = get_or self.now.words (4 * n + 3) 0 } }
    {
        let at = WIDTH * n;
        Words {
            a: self.words[at],
            b: self.words[at + 1],
            c: self.words[at + 2],
            d: self.words[at + 3],
        }
    }

    // What is known of a node.
    #[tactic(auto, unfolding(crate::specs::Held::known_of, crate::specs::Held::held))]
    pub fn load(&self, n: usize) -> Option<Value>
        requires { n < max_nodes }
        ensures { result ≡ known_of self.now.kinds self.now.words n }
    {
        let kind = self.kinds[n];
        if kind == UNKNOWN {
            return None;
        }
        Some(words::value_of(kind, self.words_at(n)))
    }

    #[tactic(auto, unfolding(model::specs::Arrays::store_words))]
    fn learn(&mut self, n: usize, v: Value)
        requires { n < max_nodes }
        ensures { Learnt v n self.old.kinds self.old.words self.new.kinds self.new.words }
    {
        let held = words::words_of(v);
        let at = WIDTH * n;
        self.kinds[n] = values::kind_of(v);
        self.words[at] = held.a;
        self.words[at + 1] = held.b;
        self.words[at + 2] = held.c;
        self.words[at + 3] = held.d;
    }
}

// What is planned of each node: an action with a detail.
#[derive(Drop)]
pub struct Plan {
    pub actions: [u8; limit::NODES],
    pub details: [u16; limit::NODES],
}

impl Plan {
    // Nothing is planned.
    pub fn new() -> Self
        ensures actions { result.actions ≡ replicate max_nodes 0 }
        ensures details { result.details ≡ replicate max_nodes 0 }
    {
        Plan {
            actions: [KEPT; limit::NODES],
            details: [0u16; limit::NODES],
        }
    }

    // A plan is stored where there is none.
    #[tactic(auto, unfolding(crate::specs::Stores::planned))]
    fn put(&mut self, n: usize, action: u8, detail: u16)
        requires { n < max_nodes }
        ensures { Planned n action detail self.old.actions self.old.details self.new.actions self.new.details }
    {
        if self.actions[n] == KEPT {
            self.actions[n] = action;
            self.details[n] = detail;
        }
    }
}

// Whether one of the kinds or actions of the first nodes is above a bound.
pub fn any_above(bytes: &[u8; limit::NODES], nodes: usize, bound: u8) -> bool
    requires { nodes ≤ max_nodes }
    ensures low { result ≡ false → (m : ℕ) → m < nodes → get_or bytes.now m 0 ≤ bound }
    ensures above { result ≡ true → Above bytes.now nodes bound }
{
    bytes[..nodes]
        .iter()
        .fold(false, |found, byte| found | (bound < *byte))
}

// Clears both: nothing is known and nothing planned.
pub fn clear(known: &mut Known, plan: &mut Plan)
    ensures { (g : Graph) → Holds g known.new.kinds known.new.words plan.new.actions plan.new.details empty }
{
    *known = Known::new();
    *plan = Plan::new();
}

// Adds what a trial gives a node that is not known; whether it is known then.
pub fn store(known: &mut Known, plan: &mut Plan, n: usize, trial: Trial) -> bool
    requires { n < max_nodes }
    ensures { (g : Graph) (s : State) → n < size g → Holds g known.old.kinds known.old.words plan.old.actions plan.old.details s → s.known n ≡ None → Within g trial
        → Holds g known.new.kinds known.new.words plan.new.actions plan.new.details (add s n (offer_of g n trial)) × (result ≡ is_some (offer_of g n trial).value) }
{
    match trial {
        Trial::Nothing => false,
        Trial::Known(v) => {
            known.learn(n, v);
            true
        }
        Trial::BecomeLiteral(v) => {
            known.learn(n, v);
            plan.put(n, BECOME_LITERAL, 0);
            true
        }
        Trial::ShortCircuit { chosen } => {
            plan.put(n, SHORT_CIRCUIT, chosen);
            false
        }
        Trial::ShortCircuitKnown { chosen, value } => {
            known.learn(n, value);
            plan.put(n, SHORT_CIRCUIT, chosen);
            true
        }
        Trial::Truncate { taken } => {
            plan.put(n, TRUNCATE, u16::from(taken));
            false
        }
    }
}
