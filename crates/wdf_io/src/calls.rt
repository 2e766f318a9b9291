use crate::count::Count;

/// The calls of an object in memory: which fail, how many there were, and how many failed.
#[derive(Debug, Drop)]
pub(crate) struct Calls {
    fails: Vec<u64>,
    number: Count,
    faults: Count,
}

impl Calls {
    ghost use Rattle.std.specs.Prelude.{◌≡◌, ◌↔◌, IsTrue, if◌then◌else◌};
    ghost use Rattle.wdf_io.specs.Calls.{call_state, no_calls, FailsNext, after_call, after_fault};
    ghost use Rattle.wdf_io.specs.Causes.{next_count};

    pub(crate) fn new(fails: Vec<u64>) -> Self
        ensures { call_state result ≡ no_calls fails.items }
    {
        Calls {
            fails,
            number: Count::zero(),
            faults: Count::zero(),
        }
    }

    // Makes the next call, and says whether it fails.
    pub(crate) fn next_fails(&mut self) -> bool
        ensures failing { IsTrue result ↔ FailsNext (call_state self.old) }
        ensures after { let old = call_state self.old in
            call_state self.new ≡ (if result then after_fault old else after_call old) }
    {
        let is_failing = self.fails.contains(&self.number.value());
        self.number.rise();
        if is_failing {
            self.count_fault();
        }
        is_failing
    }

    // The count rises by one.
    pub(crate) fn count_fault(&mut self)
        ensures { let old = call_state self.old in
            call_state self.new ≡ record old { faults = next_count old.faults } }
    {
        self.faults.rise();
    }
}
