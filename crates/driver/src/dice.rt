ghost use Rattle.std.specs.Prelude.{◌≡◌, ◌/◌, ◌%◌, ◌^◌};
ghost use Rattle.driver.specs.Dice.{stepped};

/// Numbers that look random and are the same for the same seed.
#[derive(Clone, Copy)]
pub struct Dice {
    state: u64,
}

impl Dice {
    pub fn seeded(seed: u64) -> Dice
        ensures { result.state ≡ seed }
    {
        Dice { state: seed }
    }

    /// A step of a linear congruential generator; the upper half of the state is the better part.
    fn roll(&mut self) -> u64
        ensures state { self.new.state ≡ stepped self.old.state }
        ensures value { result ≡ stepped self.old.state / 2 ^ 32 }
    {
        self.state = self
            .state
            .wrapping_mul(6_364_136_223_846_793_005)
            .wrapping_add(1_442_695_040_888_963_407);
        self.state / 4_294_967_296
    }

    /// A number below 256.
    pub fn byte(&mut self) -> u8
        ensures state { self.new.state ≡ stepped self.old.state }
        ensures value { result ≡ stepped self.old.state / 2 ^ 32 % 256 }
    {
        (self.roll() % 256) as u8
    }
}
