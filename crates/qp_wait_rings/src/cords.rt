//! A lane's cords, one for each object.

ghost use Rattle.std.specs.Prelude.{◌≡◌, ◌+◌, ◌%◌, ◌^◌, true, map};
ghost use Rattle.qp_wait_rings.specs.Cords.{RingsOne, notes_given, has_cord};

use crate::cord::Cord;

/// Gives a note to the parker of object `a`.
pub(crate) fn ring(cords: &mut [Cord], a: u8)
    requires { has_cord a cords.old ≡ true }
    ensures { RingsOne a cords.old cords.new }
{
    for place in 0..cords.len() {
        if cords[place].object == a {
            cords[place].pull();
            return;
        }
    }
}

/// Gives a note to every parker.
pub fn ring_all(cords: &mut [Cord])
    ensures pulls { map (λ c. c.pulls) cords.new ≡ map (λ c. (c.pulls + 1) % 2 ^ 64) cords.old }
    ensures objects { map (λ c. c.object) cords.new ≡ map (λ c. c.object) cords.old }
{
    for place in 0..cords.len() {
        cords[place].pull();
    }
}

/// The notes given to object `a`, modulo 2^64; 0 where there is no such object.
pub fn pulls_of(cords: &[Cord], a: u8) -> u64
    ensures { result ≡ notes_given a cords.now }
{
    let Some((one, rest)) = cords.split_first() else {
        return 0;
    };
    if one.object == a {
        return one.pulls;
    }
    pulls_of(rest, a)
}
