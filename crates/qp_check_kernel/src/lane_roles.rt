//! What each record is to the kernel lane.

ghost use Rattle.std.specs.Prelude.{◌≡◌};
ghost use Rattle.qp_model.specs.KernelLane.{role_of};
ghost use Rattle.qp_check_kernel.specs.LaneState.{as_role};

use qp_model::Body;

/// What a record is to the kernel lane.
#[derive(Clone, Copy)]
pub enum Role {
    /// A look with its count and its floor.
    Looks { k: u64, floor: u64 },
    /// A look at the queue of `p`.
    Sees { p: u64, f: u64, l: u64, m: u64 },
    Takes,
    Ends,
    Rests { k: u64 },
    /// A `lock` or `unlock`, after which the ceiling is this.
    Holds { ceiling: u64 },
    /// A `dec` or `back`.
    Drops,
    RunsOut,
    Spills,
    Acts,
}

impl Role {
    /// The role of a record that says this.
    #[tactic(auto, unfolding(qp_model::specs::KernelLane::role_of))]
    pub fn of(body: &Body) -> Role
        ensures { as_role result ≡ role_of body.now }
    {
        match body {
            Body::Look { k, floor } => Role::Looks {
                k: *k,
                floor: *floor,
            },
            Body::Seen { p, f, l, m } => Role::Sees {
                p: *p,
                f: *f,
                l: *l,
                m: *m,
            },
            Body::Took { .. } => Role::Takes,
            Body::Done => Role::Ends,
            Body::Rest { k } => Role::Rests { k: *k },
            Body::Lock { ceiling } | Body::Unlock { ceiling } => Role::Holds { ceiling: *ceiling },
            Body::Dec { .. } | Body::Back { .. } => Role::Drops,
            Body::Spent => Role::RunsOut,
            Body::Spill { .. } => Role::Spills,
            _ => Role::Acts,
        }
    }
}
