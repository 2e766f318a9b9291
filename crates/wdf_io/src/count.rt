ghost use Rattle.std.specs.Prelude.{◌≡◌, ◌^◌, ◌<◌};
ghost use Rattle.wdf_io.specs.Causes.{next_count};

/// A count of calls or of faults, which stands still at 2^64 - 1.
#[derive(Clone, Copy, Debug)]
pub(crate) struct Count {
    value: u64,
    ghost bounded: { value < 2 ^ 64 },
}

impl Count {
    pub(crate) fn zero() -> Self
        ensures { result.value ≡ 0 }
    {
        Count { value: 0 }
    }

    pub(crate) fn value(self) -> u64
        ensures { result ≡ self.value }
    {
        self.value
    }

    pub(crate) fn rise(&mut self)
        ensures { self.new.value ≡ next_count self.old.value }
    {
        self.value = self.value.saturating_add(1);
    }
}
