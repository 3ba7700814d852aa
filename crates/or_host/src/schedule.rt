ghost use Rattle.std.specs.Prelude.{◌≡◌};

/// Which calls of a store or a sink in memory fail: calls are numbered from 1, and those whose numbers stand in `fail`
/// do.
#[derive(Debug, Drop)]
pub struct Schedule {
    pub fail: Vec<u64>,
    pub calls: u64,
    pub faults: u64,
}

impl Schedule {
    ghost use Rattle.or_host.specs.Fault.{HasCause};
    ghost use Rattle.or_host.specs.Schedule.{IsStart, IsNextCall, fails_next};
    ghost use Rattle.std.specs.Prelude.{true};

    pub fn new(fail: Vec<u64>) -> Self
        ensures { IsStart fail.items result }
    {
        Schedule {
            fail,
            calls: 0,
            faults: 0,
        }
    }

    /// Counts a call, and says whether it is to fail.
    pub fn next(&mut self) -> bool
        ensures counted { IsNextCall self.old self.new }
        ensures same { self.new.faults ≡ self.old.faults }
        ensures due { result ≡ fails_next self.old }
    {
        self.calls = self.calls.saturating_add(1);
        self.fail.contains(&self.calls)
    }

    /// Raises the count of faults.
    pub fn raise(&mut self)
        ensures counted { (self.new.calls ≡ self.old.calls) × (self.new.fail.items ≡ self.old.fail.items) }
        ensures cause { HasCause self.old.faults self.new.faults true }
    {
        self.faults = self.faults.saturating_add(1);
    }
}
