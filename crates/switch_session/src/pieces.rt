ghost use Rattle.std.specs.Prelude.{◌≡◌, ◌++◌, IfOk, OnOk};
ghost use Rattle.std.specs.List.{concat, AllByRecursion};
ghost use Rattle.switch_session.specs.Frames.{IsFrame, HasNoFrame, Splits};

use crate::stream::{Got, Stream};
use net_base::{Bytes, Items, NoMemory};
use std::alloc::Global;

/// The frames of a stream, and the stream with what is unread behind them.
#[derive(Debug, Drop)]
pub struct Split {
    pub frames: Items<Bytes>,
    pub rest: Stream,
}

/// Takes the frames that are whole.
fn take_frames(
    alloc: Global,
    stream: &mut Stream,
    frames: &mut Items<Bytes>,
) -> Result<(), NoMemory>
    ensures whole { OnOk result (concat frames.new ++ stream.new ≡ concat frames.old ++ stream.old) }
    ensures each { AllByRecursion IsFrame frames.old → OnOk result (AllByRecursion IsFrame frames.new) }
    ensures ended { OnOk result (HasNoFrame stream.new) }
{
    while let Got::Frame(frame) = stream.next() {
        frames.push(Bytes::from_slice(alloc, frame.bytes)?)?;
    }
    Ok(())
}

/// The frames of a stream that comes in these pieces: those of the pieces joined, wherever they
/// were cut.
pub fn frames_of(alloc: Global, pieces: &[Bytes]) -> Result<Split, NoMemory>
    ensures { IfOk result (λ s. Splits (concat pieces.now) s.frames s.rest) }
{
    let mut rest = Stream::new(alloc);
    let mut frames = Items::new(alloc);
    for piece in pieces {
        rest.feed(piece.as_slice())?;
        take_frames(alloc, &mut rest, &mut frames)?;
    }
    Ok(Split { frames, rest })
}
