//! Which calls of a shelf or sink in memory are to fail.

ghost use Rattle.std.specs.Prelude.{◌≡◌, ◌↔◌, IsTrue, Contains};
ghost use Rattle.rail_io.specs.FaultCounts.{raised};

/// Which calls are to fail, by their numbers.
#[derive(Drop)]
pub(crate) struct Plan {
    /// The numbers of the calls that are to fail, counted from 1.
    fails: Vec<u64>,
    /// How many calls were made; at its last value it stands still.
    calls: u64,
}

impl Plan {
    /// No call was made.
    pub(crate) fn new(fails: Vec<u64>) -> Plan
        ensures list { result.fails.items ≡ fails.items }
        ensures none_made { result.calls ≡ 0 }
    {
        Plan { fails, calls: 0 }
    }

    /// Counts a call, and says whether it is to fail.
    pub(crate) fn is_next_to_fail(&mut self) -> bool
        ensures counted { self.new ≡ record self.old { calls = raised self.old.calls } }
        ensures planned { IsTrue result ↔ Contains self.old.fails.items (raised self.old.calls) }
    {
        self.calls = self.calls.saturating_add(1);
        self.fails.contains(&self.calls)
    }
}
