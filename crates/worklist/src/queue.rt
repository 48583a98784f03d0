// The queue of waiting nodes, in 1,024 places that are taken round and round.
ghost use Rattle.std.specs.Prelude.{◌≡◌, false, [], ◌+◌, ◌-◌, ◌%◌, ◌≤◌, ◌<◌, get_or, set, replicate};
ghost use Rattle.ir.specs.Limits.{max_nodes};
ghost use Rattle.model.specs.Maps.{up_to};
ghost use Rattle.model.specs.Worklist.{queue_places};
ghost use Rattle.worklist.specs.Queue.{Queued};

use ir::limit;

pub const QUEUE_PLACES: usize = 1024;

// The front is at `head`, and `count` nodes wait.
#[derive(Clone, Copy)]
pub struct Queue {
    pub places: [u16; QUEUE_PLACES],
    pub head: usize,
    pub count: usize,
}

impl Queue {
    pub fn new() -> Self
        ensures { result ≡ record { places = replicate queue_places 0; head = 0; count = 0 } }
    {
        Self {
            places: [0u16; QUEUE_PLACES],
            head: 0,
            count: 0,
        }
    }

    // The queue without its front, which the caller has read.
    pub fn rest(mut self) -> Self
        requires { (self.head < queue_places) × (0 < self.count) }
        ensures { result ≡ record { places = self.places; head = (self.head + 1) % queue_places; count = self.count - 1 } }
    {
        self.head = (self.head + 1) % QUEUE_PLACES;
        self.count -= 1;
        self
    }

    // The queue once nodes have joined it: so many wait, and the caller has stored them.
    pub fn longer(mut self, count: usize) -> Self
        ensures { result ≡ record { places = self.places; head = self.head; count = count } }
    {
        self.count = count;
        self
    }
}

// The node at the front.
pub fn front(places: &[u16; QUEUE_PLACES], head: usize) -> usize
    requires { head < queue_places }
    ensures { result ≡ get_or places.now head 0 }
{
    usize::from(places[head])
}

// Stores a node behind the last of `count`: there is a place for it.
pub fn push(places: &mut [u16; QUEUE_PLACES], head: usize, count: usize, n: usize)
    requires { (head < queue_places) × (count < queue_places) × (n < max_nodes) }
    ensures { places.new ≡ set places.old ((head + count) % queue_places) n }
{
    let at = (head + count) % QUEUE_PLACES;
    places[at] = n as u16;
}

// The nodes below `nodes` join a queue of none, each at the place of its number.
fn fill(marks: &mut [bool; limit::NODES], places: &mut [u16; QUEUE_PLACES], nodes: usize)
    requires { (nodes ≤ max_nodes) × Queued marks.old places.old 0 0 [] }
    ensures { Queued marks.new places.new 0 nodes (up_to nodes) }
{
    for n in 0..nodes {
        marks[n] = true;
        places[n] = n as u16;
    }
}

// Every node waits, in number order. The queue is lent, so that there is one of it on the stack.
pub fn start(queue: &mut Queue, marks: &mut [bool; limit::NODES], nodes: usize)
    requires { (nodes ≤ max_nodes) × (marks.old ≡ replicate max_nodes false) }
    ensures { Queued marks.new queue.new.places queue.new.head queue.new.count (up_to nodes) }
{
    *queue = Queue::new();
    fill(marks, &mut queue.places, nodes);
    queue.count = nodes;
}
