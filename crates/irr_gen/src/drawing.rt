// Numbers that are drawn one after another (a linear congruential generator).
ghost use Rattle.std.specs.Prelude.{◌≡◌, ◌<◌, ◌%◌, ◌^◌};
ghost use Rattle.irr_gen.specs.MadeInput.{next_number, drawn};

const MULTIPLIER: u64 = 1_103_515_245;

const INCREMENT: u64 = 12_345;

const MODULUS: u64 = 2_147_483_648;

/// The number that the next draw goes on from.
#[derive(Drop)]
pub(crate) struct Draws {
    pub(crate) number: u32,
}

impl Draws {
    /// Draws a number below another one.
    pub(crate) fn draw(&mut self, below: usize) -> usize
        requires { 0 < below }
        ensures drawn { result ≡ drawn below self.old.number }
        ensures below { result < below }
        ensures next { self.new.number ≡ next_number self.old.number }
    {
        let next = (MULTIPLIER * u64::from(self.number) + INCREMENT) % MODULUS;
        self.number = next as u32;
        (next / 65_536) as usize % below
    }
}
