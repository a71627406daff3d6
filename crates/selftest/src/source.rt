// Numbers that look random: a linear congruential generator of 64 bits.
use std::alloc::{AllocError, Global};

// The generator, and the heap for what is made from its numbers.
#[derive(Clone, Copy)]
pub struct Source {
    pub heap: Global,
    state: u64,
}

impl Source {
    pub fn new(heap: Global, seed: u64) -> Source {
        Source { heap, state: seed }
    }

    // The high bits of the next state, which are the better ones.
    pub fn next(&mut self) -> u32 {
        self.state = self
            .state
            .wrapping_mul(6_364_136_223_846_793_005)
            .wrapping_add(1_442_695_040_888_963_407);
        (self.state / 4_294_967_296) as u32
    }

    // A number below n, 0 where there is none.
    pub fn below(&mut self, n: u32) -> u32 {
        if n == 0 {
            return 0;
        }
        self.next() % n
    }

    // One time in n.
    pub fn one_in(&mut self, n: u32) -> bool {
        self.below(n) == 0
    }

    // An index into a list of this length.
    pub fn index(&mut self, len: usize) -> usize {
        self.below((len & 0xffff) as u32) as usize
    }

    // An entry of a list that is not empty.
    pub fn pick<T: Copy + Default>(&mut self, list: &[T]) -> T {
        let i = self.index(list.len());
        list.get(i).copied().unwrap_or_default()
    }

    // So many things, made one after another.
    pub fn several<T: Drop, F: Fn(&mut Source) -> T>(
        &mut self,
        count: u32,
        some: F,
    ) -> Result<Vec<T>, AllocError>
        requires { F.IsAlwaysCallable some }
    {
        let mut out = Vec::new(self.heap);
        for _ in 0..count {
            out.push(some(self))?;
        }
        Ok(out)
    }
}
