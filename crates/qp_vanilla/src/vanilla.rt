//! What the cooperative kernel keeps.

ghost use Rattle.std.specs.Prelude.{◌≡◌, []};

use qp_kernel::Kernel;

/// What the cooperative kernel keeps of its lane: the count of its looks, and the one step under way. The ceiling stands with
/// the objects.
#[derive(Drop)]
pub struct Vanilla {
    pub(crate) kernel: Kernel,
}

impl Vanilla {
    /// A kernel that hasn't looked yet.
    pub fn new() -> Vanilla
        ensures looks { result.kernel.looks ≡ 0 }
        ensures stack { result.kernel.stack.items ≡ [] }
        ensures steps { result.kernel.steps ≡ 0 }
    {
        Vanilla {
            kernel: Kernel::new(),
        }
    }

    /// The objects whose steps are under way, at most one.
    pub fn under_way(&self) -> &[u8]
        ensures { result.now ≡ self.now.kernel.stack.items }
    {
        self.kernel.stack.as_slice()
    }
}
