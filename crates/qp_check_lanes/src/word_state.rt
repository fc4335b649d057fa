//! What a word holds, run over its history.

ghost use Rattle.std.specs.Prelude.{◌≡◌, ◌≤◌, ◌<◌, ◌+◌, ◌^◌, length, IfOk, OnOk};
ghost use Rattle.std.specs.List.{list_all};
ghost use Rattle.qp_model.specs.Machine.{Machine, after_from, is_allowed};
ghost use Rattle.qp_model.specs.Record.{Item, item_of};
ghost use Rattle.qp_check_lanes.specs.WordState.{all_say, item_said, shows_from};

use crate::groups::{Group, Groups};
use qp_model::Body;
use std::alloc::{AllocError, Global};

/// What a word of some kind holds.
pub trait WordState {
    ghost State: { Type 0 };

    ghost machine: { Self → Machine State };

    ghost state: { Self → State };

    /// Whether this operation is allowed.
    fn allows(&self, of: u8, body: &Body) -> bool
        ensures { result ≡ (machine self.now).may (state self.now) (item_said of body.now) };

    /// Makes this operation, as its record states it.
    fn apply(&mut self, of: u8, body: &Body) -> Result<(), AllocError>
        requires { (machine self.old).count (state self.old) + 1 < 2 ^ 64 }
        ensures same { OnOk result (machine self.new ≡ machine self.old) }
        ensures next { OnOk result (state self.new ≡ (machine self.old).next (state self.old) (item_said of body.now)) }
        ensures counted { OnOk result ((machine self.old).count (state self.new) ≤ (machine self.old).count (state self.old) + 1) };

    /// Whether what this record shows of the word is so.
    fn says(&self, body: &Body) -> bool
        ensures { result ≡ (machine self.now).says (state self.now) body.now };
}

/// Makes these operations on a word that had none.
pub fn run<H: WordState>(held: &mut H, history: &Group) -> Result<(), AllocError>
    requires { (H.machine held.old).count (H.state held.old) ≡ 0 }
    ensures { OnOk result (H.state held.new ≡ after_from (H.machine held.old) (H.state held.old) history.now) }
{
    for r in &history.items {
        held.apply(r.of, &r.body())?;
    }
    Ok(())
}

/// Whether each operation is allowed in its turn.
pub fn is_allowed<H: WordState + Drop>(mut held: H, history: &Group) -> Result<bool, AllocError>
    requires first { H.state held ≡ (H.machine held).first }
    requires none { (H.machine held).count (H.state held) ≡ 0 }
    ensures { IfOk result (λ b. b ≡ is_allowed (H.machine held) history.now) }
{
    for r in &history.items {
        let body = r.body();
        if !held.allows(r.of, &body) {
            return Ok(false);
        }
        held.apply(r.of, &body)?;
    }
    Ok(true)
}

/// Whether all that is shown of the word is so. `shown` has the records for each number of operations
/// from 0 to all.
pub fn is_shown<H: WordState + Drop>(
    mut held: H,
    history: &Group,
    shown: &Groups,
) -> Result<bool, AllocError>
    requires first { H.state held ≡ (H.machine held).first }
    requires none { (H.machine held).count (H.state held) ≡ 0 }
    requires places { length shown.now ≡ length history.now + 1 }
    ensures { IfOk result (λ b. b ≡ shows_from (H.machine held) (H.machine held).first history.now shown.now) }
{
    for (n, r) in history.items.iter().enumerate() {
        if !all_say(&held, &shown.items[n]) {
            return Ok(false);
        }
        held.apply(r.of, &r.body())?;
    }
    Ok(all_say(&held, &shown.items[history.items.len()]))
}

/// Whether what these records show of the word is so.
fn all_say<H: WordState>(held: &H, shown: &Group) -> bool
    ensures { result ≡ all_say (H.machine held.now) (H.state held.now) shown.now }
{
    for r in &shown.items {
        if !held.says(&r.body()) {
            return false;
        }
    }
    true
}
