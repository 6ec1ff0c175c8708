ghost use Rattle.std.specs.Prelude.{◌≡◌, ◌<◌};
ghost use Rattle.schedule_draws.specs.Draws.{next_state, drawn};

/// Numbers that are drawn one after another from a seed.
#[derive(Clone, Copy, Debug, PartialEq, Eq)]
pub struct Draws {
    /// What the next number is drawn from, at first the seed.
    pub state: u64,
}

impl Draws {
    /// The next number below `n`, which is at most 2^31 - 1 also where `n` is greater.
    pub fn below(&mut self, n: u64) -> u64
        requires { 0 < n }
        ensures state { self.new.state ≡ next_state self.old.state }
        ensures drawn { result ≡ drawn self.new.state n }
        ensures below { result < n }
    {
        self.state = self
            .state
            .wrapping_mul(6_364_136_223_846_793_005)
            .wrapping_add(1_442_695_040_888_963_407);
        (self.state >> 33) % n
    }
}
