// Pseudo-random numbers: Marsaglia's xorshift of 64 bits, with a running sum of a fixed step added, as in his xorwow. They are plain ones, for
// a bench: the same seed gives the same numbers on every machine.
ghost use Rattle.std.specs.Prelude.{◌<◌};

// The step of the running sum: 2^64 over the golden ratio.
const STEP: u64 = 11400714819323198485;

// The state between two draws. `bits` is never 0.
#[derive(Clone, Copy)]
pub struct Dice {
    bits: u64,
    sum: u64,
}

// The dice of a seed: its state is spread over all bits, and turned until neighbouring seeds no longer resemble each other.
pub fn seeded(seed: u32) -> Dice {
    let start = Dice {
        bits: (seed as u64 + 1) * 2654435769,
        sum: 0,
    };
    let turned = start.next().next().next().next();
    turned.next().next().next().next()
}

impl Dice {
    // The dice turned once.
    pub fn next(self) -> Dice {
        let a = self.bits ^ (self.bits << 13);
        let b = a ^ (a >> 7);
        Dice {
            bits: b ^ (b << 17),
            sum: std::num::wrapping_add_u64(self.sum, STEP),
        }
    }

    // The number that lies on top, from 0 to before n; it stays until the dice are turned.
    pub fn below(self, n: u64) -> u64
        requires { 0 < n }
        ensures { result < n }
    {
        (std::num::wrapping_add_u64(self.bits, self.sum) >> 32) % n
    }

    // The number that lies on top, from 1 to n; 0 where n is 0.
    pub fn up_to(self, n: u64) -> u64 {
        if n == 0 {
            return 0;
        }
        self.below(n) + 1
    }

    // Whether a thing happens now that happens so many times in a thousand.
    pub fn happens(self, in_a_thousand: u64) -> bool {
        self.below(1000) < in_a_thousand
    }
}
