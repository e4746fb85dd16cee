ghost use Rattle.std.specs.Prelude.{◌≡◌, ◌≤◌, ℕ, Bool, true, false};
ghost use Rattle.fg_outside.specs.Counts.{counted};

use net_base::Items;

/// Numbers of calls, from 1, of those calls of an object that can fail.
pub type CallNos = Items<u64>;

/// Which calls of an object in memory are to fail.
pub trait FaultPlan {
    /// Whether the next call fails.
    ghost fails: { Self → Bool };

    /// The plan once the next call was counted.
    ghost after: { Self → Self };

    /// How many calls failed.
    ghost faults: { Self → ℕ };

    /// Counts a call, and says whether it fails.
    fn next_call(&mut self) -> bool
        ensures fails { result ≡ fails self.old }
        ensures after { self.new ≡ after self.old }
        ensures one_fault { result ≡ true → faults self.new ≡ counted (faults self.old) }
        ensures grows { faults self.old ≤ faults self.new }
        ensures kept { result ≡ false → faults self.new ≡ faults self.old };
}

/// The calls with these numbers fail.
#[derive(Debug, Drop)]
pub struct FailListed {
    fail: CallNos,
    calls: u64,
    faults: u64,
}

impl FailListed {
    ghost use Rattle.fg_outside.specs.FaultPlan.{fresh};

    /// No call was made yet.
    pub fn new(fail: CallNos) -> FailListed
        ensures { result ≡ fresh fail }
    {
        FailListed {
            fail,
            calls: 0,
            faults: 0,
        }
    }
}

impl FaultPlan for FailListed {
    ghost use Rattle.fg_outside.specs.FaultPlan.{is_listed, after_call};

    ghost fails = { is_listed };

    ghost after = { after_call };

    ghost faults = { λ plan. plan.faults };

    fn next_call(&mut self) -> bool {
        self.calls = self.calls.saturating_add(1);
        let listed = self.fail.as_slice().contains(&self.calls);
        if listed {
            self.faults = self.faults.saturating_add(1);
        }
        listed
    }
}

/// No call fails.
#[derive(Clone, Copy, Debug, PartialEq, Eq)]
pub struct FailNever;

impl FaultPlan for FailNever {
    ghost fails = { λ _. false };

    ghost after = { λ plan. plan };

    ghost faults = { λ _. 0 };

    fn next_call(&mut self) -> bool {
        false
    }
}
