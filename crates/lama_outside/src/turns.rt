//! Which calls on a source or a sink over memory fail.

ghost use Rattle.std.specs.Prelude.{◌≡◌, ◌==◌, ◌<◌, ◌≤◌, ◌^◌, if◌then◌else◌, IsTrue};
ghost use Rattle.lama_base.specs.Faults.{Rose};
ghost use Rattle.std.specs.List.{list_any};
ghost use Rattle.lama_outside.specs.Memory.{more};

/// The calls so far, and the numbers of those that are to fail.
#[derive(Drop)]
pub struct Turns {
    pub failing: Vec<u32>,
    pub calls: u64,
    pub faults: u64,
}

impl Turns {
    /// No call was made yet.
    pub fn new(failing: Vec<u32>) -> Self
        ensures { result ≡ record { failing = failing; calls = 0; faults = 0 } }
    {
        Turns {
            failing,
            calls: 0,
            faults: 0,
        }
    }

    /// Counts a call and says whether it fails, in which case it is counted as a fault too.
    pub fn next_fails(&mut self) -> bool
        ensures value { result ≡ list_any (λ number. number == self.old.calls) self.old.failing.items }
        ensures failing { self.new.failing ≡ self.old.failing }
        ensures calls { self.new.calls ≡ more self.old.calls }
        ensures faults { self.new.faults ≡ (if result then more self.old.faults else self.old.faults) }
        ensures rose { IsTrue result → Rose self.old.faults self.new.faults }
        ensures steady { self.old.faults ≤ self.new.faults }
        ensures bounded { self.new.faults < 2 ^ 64 }
    {
        let call = self.calls;
        let fails = self.failing.iter().any(|number| u64::from(*number) == call);
        self.calls = call.saturating_add(1);
        let faults = self.faults;
        self.faults = if fails {
            faults.saturating_add(1)
        } else {
            faults
        };
        fails
    }
}
