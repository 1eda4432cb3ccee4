// The generator of numbers.
ghost use Rattle.std.specs.Prelude.{◌≡◌, ◌<◌};
ghost use Rattle.std.specs.Fn.{iterate};
ghost use Rattle.scenario_gen.specs.Draws.{draws_behind, drawn, first_number, next_number};

const SPAN: u64 = 2147483648;

const FACTOR: u64 = 1103515245;

const ADDEND: u64 = 12345;

const UNUSED: u32 = 65536;

const OPERATIONS: u32 = 3;

const KEYS: u32 = 16;

const AMOUNTS: u32 = 100;

const REFUSALS: u32 = 8;

/// What is drawn for a process: which operation its first step has, the key and the amount of each of its steps, and which of its
/// steps is refused once.
#[derive(Clone, Copy, Drop)]
pub(crate) struct Draws {
    pub operation: u32,
    pub key: u32,
    pub amount: u32,
    pub refusal: u32,
}

/// A generator of numbers that look random, by the last number that it made.
#[derive(Drop)]
pub(crate) struct Generator {
    number: u32,
}

impl Generator {
    /// A generator that has drawn nothing.
    pub fn new(number: u64) -> Generator
        ensures { result.number ≡ first_number number }
    {
        Generator {
            number: (number % SPAN) as u32,
        }
    }

    // Makes the next number.
    fn step(&mut self)
        ensures { self.new.number ≡ next_number self.old.number }
    {
        self.number = ((FACTOR * u64::from(self.number) + ADDEND) % SPAN) as u32;
    }

    // Draws a number below n.
    fn draw(&mut self, n: u32) -> u32
        requires { 0 < n }
        ensures number { self.new.number ≡ next_number self.old.number }
        ensures drawn { result ≡ drawn n self.new.number }
    {
        self.step();
        self.number / UNUSED % n
    }

    /// Draws the numbers of a process.
    pub fn draws(&mut self) -> Draws
        ensures number { self.new.number ≡ iterate next_number 4 self.old.number }
        ensures draws { result ≡ draws_behind self.old.number }
    {
        let operation = self.draw(OPERATIONS);
        let key = self.draw(KEYS);
        let amount = self.draw(AMOUNTS);
        let refusal = self.draw(REFUSALS);
        Draws {
            operation,
            key,
            amount,
            refusal,
        }
    }
}
