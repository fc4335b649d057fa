//! What a kernel keeps.

ghost use Rattle.std.specs.Prelude.{◌≡◌, []};

use arrayvec::ArrayVec;

/// What a kernel keeps of its lane: the count of its looks, the objects whose steps are under way, the outermost
/// first, and how many entries its objects have taken up.
#[derive(Drop)]
pub struct Kernel {
    pub looks: u32,
    pub stack: ArrayVec<u8, 32>,
    pub steps: u64,
}

impl Kernel {
    /// A kernel that hasn't looked yet.
    pub fn new() -> Kernel
        ensures looks { result.looks ≡ 0 }
        ensures stack { result.stack.items ≡ [] }
        ensures steps { result.steps ≡ 0 }
    {
        Kernel {
            looks: 0,
            stack: ArrayVec::new(),
            steps: 0,
        }
    }
}
