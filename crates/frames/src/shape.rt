// What a frame of each kind holds, and no more: every shape rule of refusal 4.
ghost use Rattle.std.specs.Prelude.{◌≡◌, ◌≤◌, length};
ghost use Rattle.scope.specs.Frames.{frame};
ghost use Rattle.fields.specs.Places.{said_read, said_at, read_at};
ghost use Rattle.frames.specs.Wholes.{whole};

use clause::patterns;
use declarations::{constructor_frame, type_frame};
use fields::{Fault, byte};
use scope::kinds::FrameKind;

// What comes after the kind of a frame.
fn held(bytes: &[u8], at: usize, kind: u8) -> Result<usize, Fault>
    requires at_in_bounds { at ≤ length bytes.now }
    requires bytes_len_bound { length bytes.now ≤ 65536 }
    ensures { result ≡ read_at bytes.now at (frame kind) }
{
    match FrameKind::try_from(kind) {
        Ok(FrameKind::TypeFrame) => type_frame(bytes, at),
        Ok(FrameKind::ConstructorFrame) => constructor_frame(bytes, at),
        Ok(FrameKind::SubjectFrame) => byte(bytes, at),
        Ok(FrameKind::ClauseFrame) => patterns(bytes, at, 1),
        Ok(FrameKind::EndFrame) => Ok(at),
        Err(_) => Err(Fault { at }),
    }
}

// A frame of this kind, whole: no fault, and no bytes over.
pub fn frame(bytes: &[u8], at: usize, kind: u8) -> Result<usize, Fault>
    requires at_in_bounds { at ≤ length bytes.now }
    requires bytes_len_bound { length bytes.now ≤ 65536 }
    ensures { said_read result ≡ said_at bytes.now at (λ bs. whole (frame kind bs)) }
{
    let to = held(bytes, at, kind)?;
    if to < bytes.len() {
        return Err(Fault { at: to });
    }
    Ok(to)
}
