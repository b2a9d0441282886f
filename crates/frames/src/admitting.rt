// A line's frame, before what it adds: unknown kind (4), 5, 6, the rest of 4.
ghost use Rattle.std.specs.Prelude.{◌≡◌, ◌<◌, ◌≤◌, length, get_or, drop};
ghost use Rattle.frames.specs.Checked.{said_kind, checked, kind_of};

use crate::read_frame;
use order::{State, has_room, stands};
use scope::kinds::FrameKind;
use scope::refusal::Refusal;

// The kind of a line's frame, where no fault comes before what the frame adds: unknown (4), 5, 6, the rest of 4.
pub fn kind_of(bytes: &[u8], at: usize, s: State, last: usize) -> Result<FrameKind, Refusal>
    requires at_in_bounds { at < length bytes.now }
    requires bytes_len_bound { length bytes.now ≤ 65536 }
    ensures { said_kind result ≡ kind_of (checked s last (drop at bytes.now)) (get_or bytes.now at 0) }
{
    let f = read_frame(&bytes[at..]);
    let Ok(kind) = FrameKind::try_from(f.kind) else {
        return Err(Refusal::Frame);
    };
    if !stands(s.phase, f.kind) {
        return Err(Refusal::Order);
    }
    if !has_room(s, last, f.kind) {
        return Err(Refusal::Many);
    }
    match f.end {
        Ok(_) => Ok(kind),
        Err(_) => Err(Refusal::Frame),
    }
}
