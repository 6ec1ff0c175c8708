ghost use Rattle.std.specs.Prelude.{◌≡◌};
ghost use Rattle.memory_files.specs.Failing.{is_due, counted};

/// The numbers of the calls that are to fail, counted from 0, and how many calls there were.
#[derive(Debug)]
pub struct Failing {
    pub numbers: Vec<u64>,
    pub calls: u64,
}

impl Drop for Failing {
    fn drop(self) {
        let Failing {
            numbers: _numbers,
            calls: _,
        } = self;
    }
}

impl Failing {
    /// No call was made yet.
    pub fn at(numbers: Vec<u64>) -> Failing
        ensures { result ≡ record { numbers = numbers; calls = 0 } }
    {
        Failing { numbers, calls: 0 }
    }

    /// Counts a call, and says whether it is to fail.
    pub fn next(&mut self) -> bool
        ensures due { result ≡ is_due self.old }
        ensures counted { self.new ≡ counted self.old }
    {
        let number = self.calls;
        self.calls = number.saturating_add(1);
        self.numbers.iter().any(|other| *other == number)
    }
}
