//! What a solve gives out and a settle takes.
ghost use Rattle.std.specs.Prelude.{◌≡◌};

/// An open scan. It has to be settled: only a token of number 0 may be let go, and no scan has that number.
pub struct ScanToken {
    pub(crate) number: u32,
}

impl Drop for ScanToken {
    // No caller has a token of which it can show this.
    fn drop(self)
        requires { self.number ≡ 0 }
    {
        let ScanToken { number: _ } = self;
    }
}

impl ScanToken {
    /// The number of the scan, from 1 to 1,000,000.
    pub fn number(&self) -> u32
        ensures { result ≡ self.now.number }
    {
        self.number
    }

    // Takes the token apart, so that its `drop` does not run.
    pub(crate) fn spend(self) {
        let ScanToken { number: _ } = self;
    }
}
