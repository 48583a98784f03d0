// The chains on the way, the next to be walked on top.
ghost use Rattle.std.specs.Prelude.{◌<◌, ◌≡◌, length, get_or};
ghost use Rattle.ir.specs.Limits.{max_wires};
ghost use Rattle.emit.specs.Emit.{Pushed, Popable, Popped};

use ir::limit;

// Codes of chains, and how many.
#[derive(Drop)]
pub struct Stack {
    pub codes: [u16; limit::WIRES],
    pub height: usize,
}

impl Stack {
    pub fn new() -> Self
        ensures height { result.height ≡ 0 }
        ensures long { length result.codes ≡ max_wires }
    {
        Stack {
            codes: [0; limit::WIRES],
            height: 0,
        }
    }

    // Stacks a chain, unless it is at its end.
    pub fn push(&mut self, code: u16)
        requires { self.old.height < max_wires }
        ensures { Pushed self.old.codes self.new.codes self.old.height code self.new.height }
    {
        if code != 0 {
            self.codes[self.height] = code;
            self.height += 1;
        }
    }

    // Takes the first wire of the chain on top off the stack. Where nothing is stacked, the wire is 0.
    pub fn pop(&mut self, next: &[u16; limit::WIRES]) -> usize
        requires { Popable self.old.codes self.old.height }
        ensures { Popped next.now self.old.codes self.new.codes self.old.height result self.new.height }
    {
        if self.height == 0 {
            return 0;
        }
        self.height -= 1;
        let wire = usize::from(self.codes[self.height]) - 1;
        self.push(next[wire]);
        wire
    }
}
