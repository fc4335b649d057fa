//! A lane that meets another one of its table.

ghost use Rattle.std.specs.Prelude.{◌≡◌};
ghost use Rattle.qp_calls_log.specs.Meeting.{IsTogether, Met};

use qp_calls::Ops;

/// A lane of a table that several threads share, which may meet the others.
pub trait Meets: Ops {
    /// The lane sees what the other has seen, which is of the same table. It adds no record and takes no memory, and the other one
    /// stands as it stood.
    fn meet(&mut self, other: &mut Self)
        requires { IsTogether (Self.lane self.old) (Self.lane other.old) }
        ensures meets { Met (Self.lane self.old) (Self.lane other.old) (Self.lane self.new) }
        ensures other { Self.lane other.new ≡ Self.lane other.old };
}
