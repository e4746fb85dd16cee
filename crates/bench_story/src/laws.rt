//! Laws of the definitions: each function is empty, and its contract is the law.

ghost use Rattle.std.specs.Prelude.{◌≡◌, ◌==◌, ◌<◌, ◌^◌, ℕ};
ghost use Rattle.conf_types.specs.Valid.{IsValid};
ghost use Rattle.of13_codec.specs.declared.message.Message.{Message};
ghost use Rattle.of13_codec.specs.declared.message.Message.TheVariants.{BarrierReply, BarrierRequest};
ghost use Rattle.of13_codec.specs.Messages.{kind_of, written};
ghost use Rattle.ctl_core.specs.Story.{behind};
ghost use Rattle.ctl_life.specs.Sayings.{saying_of};
ghost use Rattle.ctl_world.specs.World.{first};
ghost use Rattle.ctl_world.specs.declared.said.Said.TheVariants as said;
ghost use Rattle.bench_story.specs.Counted.{is_of, reply_to};
ghost use Rattle.bench_story.specs.Measured.{said_of};
ghost use Rattle.bench_story.specs.Setup.{configuration};
ghost use Rattle.bench_story.specs.Story.{after, story};

/// The configuration of the story is valid.
pub fn the_configuration_is_valid()
    ensures { IsValid configuration }
{}

/// What the story says of itself on its way is what a controller knows and says to which all of it happens.
pub fn the_story_is_that_of_a_controller()
    ensures known { (hosts : ℕ) → (after hosts).known ≡ behind (first configuration) (story hosts) }
    ensures said { (hosts : ℕ) → (after hosts).said ≡ said_of (story hosts) }
{}

/// A message is counted by its type, and a barrier is owed the reply with its transaction id.
pub fn messages_are_counted_by_their_types()
    ensures counted { (kind conn xid : ℕ) (m : Message) → kind_of m < 256 → is_of kind (saying_of (said.Message conn m xid)) ≡ (kind_of m == kind) }
    ensures replied { (conn xid : ℕ) → xid < 2 ^ 32 → reply_to (saying_of (said.Message conn BarrierRequest xid)) ≡ written BarrierReply xid }
{}
