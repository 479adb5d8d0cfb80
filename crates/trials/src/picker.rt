// Numbers that look picked at random, and are the same at each run.
ghost use Rattle.std.specs.Prelude.{◌≡◌};
ghost use Rattle.trials.specs.Sequence.{next, picked};

// A linear congruential sequence: the number that follows is FACTOR times the last and STEP more, modulo MODULUS.
const MODULUS: usize = 1 << 31;

const FACTOR: usize = 1103515245;

const STEP: usize = 12345;

// The lowest ten bits of a number in the sequence repeat too soon to be used.
const LOW: usize = 1 << 10;

// The last number of the sequence is all of its state.
#[derive(Drop)]
pub struct Picker {
    last: usize,
}

impl Picker {
    // The sequence from the number that follows the seed.
    pub fn new(seed: usize) -> Picker
        ensures { result.last ≡ seed }
    {
        Picker { last: seed }
    }

    // A number below n, or 0 where there is none.
    pub fn pick(&mut self, n: usize) -> usize
        ensures last { self.new.last ≡ next self.old.last }
        ensures picked { result ≡ picked self.new.last n }
    {
        self.last = (self.last % MODULUS * FACTOR + STEP) % MODULUS;
        self.last / LOW % n.max(1)
    }
}
