ghost use Rattle.std.specs.Prelude.{◌≡◌, false};
ghost use Rattle.machine_parts.specs.Slots.{lowest, closed, opened};

/// Which of the slots 0 to 3 are open.
#[derive(Clone, Copy, Debug, PartialEq, Eq)]
pub struct Open {
    pub zeroth: bool,
    pub first: bool,
    pub second: bool,
    pub third: bool,
}

impl Open {
    /// No slot is open.
    pub fn none() -> Open
        ensures { result ≡ record { zeroth = false; first = false; second = false; third = false } }
    {
        Open {
            zeroth: false,
            first: false,
            second: false,
            third: false,
        }
    }

    /// The slot that is closed first: the lowest, but 0 last.
    pub fn lowest(self) -> Option<u8>
        ensures { result ≡ lowest self }
    {
        if self.first {
            Some(1)
        } else if self.second {
            Some(2)
        } else if self.third {
            Some(3)
        } else if self.zeroth {
            Some(0)
        } else {
            None
        }
    }

    /// What is open once that slot is closed.
    pub fn closed(self) -> Open
        ensures { result ≡ closed self }
    {
        let mut left = self;
        if self.first {
            left.first = false;
        } else if self.second {
            left.second = false;
        } else if self.third {
            left.third = false;
        } else {
            left.zeroth = false;
        }
        left
    }

    /// The same with another slot filled or empty.
    pub fn opened(self, slot: u8, filled: bool) -> Open
        ensures { result ≡ opened self slot filled }
    {
        let mut now = self;
        match slot {
            0 => now.zeroth = filled,
            1 => now.first = filled,
            2 => now.second = filled,
            3 => now.third = filled,
            _ => {}
        }
        now
    }
}
