ghost use Rattle.std.specs.Prelude.{◌≡◌, ◌≢◌, ℕ, ◌+◌, ◌-◌, ◌^◌, ◌≤◌, List, [], ◌∷◌, drop, Option, Some};
ghost use Rattle.std.specs.Option.{option_map};
ghost use Rattle.fg_outside.specs.Counts.{Rose};
ghost use Rattle.fg_links.specs.declared.next.MemNext.{MemNext};
ghost use Rattle.fg_links.specs.declared.told.Told.{Told};
ghost use Rattle.fg_links.specs.Nexts.{next_of, links_of};
ghost use Rattle.fg_links.specs.Calls.{Appends};

use crate::link::Link;
use crate::next::Next;

/// What happens on links, one answer at a time. The links have numbers from 1, in the order in
/// which they were given.
pub trait Poller {
    /// The links that it gives.
    type L: Link + Drop;

    /// How many links it has given.
    ghost given: { Self → ℕ };

    /// What it will give, in order, where it tells it; behind that it says `Stop`.
    ghost ahead: { Self → Option (List (MemNext Self.L)) };

    /// What it was told by `quiet` and `gone`, in order, where it tells it.
    ghost told: { Self → Option (List Told) };

    /// How often `next` failed.
    ghost faults: { Self → ℕ };

    /// Waits for what happens next. A link that is ready may be told again until `quiet` is called
    /// with its number. After `Failed` it has given nothing.
    fn next(&mut self) -> Next<Self::L>
        ensures next { (list : List (MemNext Self.L)) → ahead self.old ≡ Some list → result ≢ Next.Failed → result ≡ next_of list }
        ensures onward { result ≢ Next.Failed → ahead self.new ≡ option_map (drop 1) (ahead self.old) }
        ensures kept { result ≡ Next.Failed → ahead self.new ≡ ahead self.old }
        ensures given { given self.new ≡ given self.old + links_of result }
        ensures most { given self.new ≤ 2 ^ 32 - 1 }
        ensures told { told self.new ≡ told self.old }
        ensures failed { result ≡ Next.Failed → Rose (faults self.old) (faults self.new) }
        ensures no_fault { result ≢ Next.Failed → faults self.new ≡ faults self.old }
        ensures faults { faults self.old ≤ faults self.new };

    /// Tells it that a read of the link with this number answered `NotYet`.
    fn quiet(&mut self, link: u32)
        ensures told { Appends (told self.old) (Told.Quiet link ∷ []) (told self.new) }
        ensures ahead { ahead self.new ≡ ahead self.old }
        ensures given { given self.new ≡ given self.old }
        ensures faults { faults self.new ≡ faults self.old };

    /// Tells it that the link with this number is no longer used.
    fn gone(&mut self, link: u32)
        ensures told { Appends (told self.old) (Told.Gone link ∷ []) (told self.new) }
        ensures ahead { ahead self.new ≡ ahead self.old }
        ensures given { given self.new ≡ given self.old }
        ensures faults { faults self.new ≡ faults self.old };
}
