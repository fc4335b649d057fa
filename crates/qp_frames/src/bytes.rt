//! The bytes of a frame.

ghost use Rattle.std.specs.Prelude.{◌≡◌, ◌≤◌, ◌+◌, ◌*◌, ◌-◌, ◌%◌, ◌++◌, ◌∷◌, [], length, sum};
ghost use Rattle.std.specs.List.{flat_map};
ghost use Rattle.qp_model.specs.Output.{item};
ghost use Rattle.qp_model.specs.OutputFrames.{checksum, escaped, frame, frame_bytes, groups, number_bytes};

use arrayvec::ArrayVec;

/// Room for the longest frame before its bytes are escaped: the sequence byte, the id, and 14 numbers of ten bytes.
const BODY_ROOM: usize = 142;

/// Room for the longest frame: each byte and the checksum may be escaped, and the end byte follows.
pub(crate) const FRAME_ROOM: usize = 287;

/// A frame before its bytes are escaped.
type Body = ArrayVec<u8, BODY_ROOM>;

/// A frame.
pub(crate) type Frame = ArrayVec<u8, FRAME_ROOM>;

/// The byte that ends a frame.
pub(crate) const END: u8 = 0x7E;

/// The byte that stands before an escaped one.
pub(crate) const ESCAPE: u8 = 0x7D;

/// The frame of an item.
pub(crate) fn frame(form: u8, sequence: u8, id: u8, nums: &[u64]) -> Frame
    requires { length nums.now ≤ 14 }
    ensures { result.items ≡ frame form sequence (item id nums.now) }
{
    let body = body(form, sequence, id, nums);
    let mut frame = Frame::new();
    push_escaped(&mut frame, body.as_slice());
    push_escaped(&mut frame, &[checksum(body.as_slice())]);
    frame.push(END);
    frame
}

/// The sequence byte, the id and the numbers.
fn body(form: u8, sequence: u8, id: u8, nums: &[u64]) -> Body
    requires { length nums.now ≤ 14 }
    ensures { result.items ≡ frame_bytes form sequence (item id nums.now) }
{
    let mut body = Body::new();
    body.push(sequence);
    body.push(id);
    for n in nums {
        push_number(&mut body, form, *n);
    }
    body
}

/// Appends a number.
fn push_number(body: &mut Body, form: u8, n: u64)
    requires { length body.old.items + 10 ≤ 142 }
    ensures bytes { body.new.items ≡ body.old.items ++ number_bytes form n }
    ensures len { length body.new.items ≤ length body.old.items + 10 }
{
    if form == 2 {
        push_groups(body, n);
    } else {
        let _ = body.try_extend_from_slice(&n.to_le_bytes());
    }
}

/// Appends a number in groups of seven bits.
fn push_groups(body: &mut Body, n: u64)
    requires { length body.old.items + 10 ≤ 142 }
    ensures bytes { body.new.items ≡ body.old.items ++ groups 10 n }
    ensures len { length body.new.items ≤ length body.old.items + 10 }
{
    let mut rest = n;
    for place in 0..10usize {
        if rest < 128 {
            body.push(rest as u8);
            return;
        }
        body.push((rest % 128 + 128) as u8);
        rest /= 128;
    }
}

/// The complement of the sum of the bytes in eight bits.
pub(crate) fn checksum(bytes: &[u8]) -> u8
    ensures { result ≡ checksum bytes.now }
{
    let mut total = 0u8;
    for b in bytes {
        total = total.wrapping_add(*b);
    }
    255 - total
}

/// Appends bytes, escaped where they have a meaning of their own.
fn push_escaped(frame: &mut Frame, bytes: &[u8])
    requires { length frame.old.items + 2 * length bytes.now ≤ 286 }
    ensures bytes { frame.new.items ≡ frame.old.items ++ flat_map escaped bytes.now }
    ensures len { length frame.new.items ≤ length frame.old.items + 2 * length bytes.now }
{
    for b in bytes {
        push_byte(frame, *b);
    }
}

/// Appends a byte, escaped where it has a meaning of its own.
fn push_byte(frame: &mut Frame, b: u8)
    requires { length frame.old.items + 2 ≤ 286 }
    ensures bytes { frame.new.items ≡ frame.old.items ++ escaped b }
    ensures len { length frame.new.items ≤ length frame.old.items + 2 }
{
    match b {
        END => {
            frame.push(ESCAPE);
            frame.push(0x5E);
        }
        ESCAPE => {
            frame.push(ESCAPE);
            frame.push(0x5D);
        }
        _ => frame.push(b),
    }
}
