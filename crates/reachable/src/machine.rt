// A machine that reads a rest from its end: which vector the obligations have on it.
ghost use Rattle.std.specs.Prelude.{◌≡◌};
ghost use Rattle.reachable.specs.Reach.{Moves};

pub trait Machine {
    ghost moves: { Self → Moves };

    // The vector of the empty rest.
    fn start(&self) -> u8
        ensures { result ≡ (moves self.now).start };

    // The vector of an event with the letters `a` before a rest with the vector `v`.
    fn step(&self, a: u8, v: u8) -> u8
        ensures { result ≡ (moves self.now).step a v };

    // Whether an event can have the letters `a`.
    fn possible(&self, a: u8) -> bool
        ensures { result ≡ (moves self.now).possible a };
}
