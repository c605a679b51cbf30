// What the answer of an ask does to a thread.
ghost use Rattle.std.specs.Prelude.{◌≡◌};
ghost use Rattle.vb_code.specs.Code.{Code};
ghost use Rattle.vb_code.specs.Local.{thread_of};
ghost use Rattle.vb_frames.specs.Frames.{Awaits, given};

use vb_code::{Local, Position};

/// Goes on after an ask was answered: a Write takes its text off the operands, the object of an exception is thrown, and a
/// thread that has returned ends. It takes no memory.
pub fn give(local: &mut Local)
    requires { Awaits local.old }
    ensures leads { (c : Code) → thread_of c local.new ≡ given c local.old }
    ensures begun { local.new.begun ≡ local.old.begun }
{
    match local.position {
        Position::Writing(place) => {
            let _text = local.operands.pop_text();
            local.position = Position::At(place + 1);
        }
        Position::Throwing(_, class) => local.position = Position::Thrown(class),
        Position::Returned => local.position = Position::Ended,
        _ => unreachable!(),
    }
}
