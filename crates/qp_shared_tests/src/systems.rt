//! Systems and stimuli from texts.

ghost use Rattle.std.specs.Prelude.{IfSome};
ghost use Rattle.qp_model.specs.Sound.{IsSound};
ghost use Rattle.qp_stim.specs.Rules.{StimuliFit};

use qp_model::{Stimuli, System};
use qp_stim::stimuli_of_bytes;
use qp_system::system_of_bytes;
use std::alloc::{AllocError, Global};

/// Signals 4 to 8: GO, X, TA and TB are static, N has a parameter.
const SIGNALS: &str =
    "signal = [{ name = 'GO', static = true }, { name = 'N', params = 1 }, { name = 'X', static = true }, { name = 'TA', static = true }, { name = 'TB', static = true }]
";

/// One object `lamp` with this queue and this list of deferred entries, and so many blocks for one parameter. Its chart has one state `s`;
/// `chart` is what stands in it besides.
pub(crate) fn one(
    alloc: Global,
    queue: u8,
    defer: u8,
    blocks: u8,
    chart: &str,
) -> Result<String, AllocError> {
    format!(in alloc;
        "qp = 1
pool = [{{ size = 1, blocks = {blocks} }}]
{SIGNALS}object = [{{ name = 'lamp', chart = 'c', priority = 1, queue = {queue}, defer = {defer} }}]
[[chart]]
name = 'c'
init = 's'
{chart}
"
    )
}

/// Three objects that subscribe to N, of which the highest forwards the first one to itself.
pub(crate) const THREE: &str = "qp = 1
pool = [{ size = 1, blocks = 2 }]
signal = [{ name = 'GO', static = true }, { name = 'N', params = 1 }, { name = 'X', static = true }]
object = [
  { name = 'o1', chart = 'q', priority = 1, queue = 1 },
  { name = 'o2', chart = 'q', priority = 2, queue = 1 },
  { name = 'o3', chart = 'h', priority = 3, queue = 1 },
]
[[chart]]
name = 'q'
init = 's'
init_do = ['subscribe N']
state = [{ name = 's' }]
[[chart]]
name = 'h'
init = 's'
init_do = ['subscribe N']
vars = { x = 0 }
state = [{ name = 's', row = [{ on = 'N', when = 'x == 0', do = ['x = 1', 'forward me'] }] }]
";

/// Two objects without rows, and blocks for one parameter that are soon given out.
pub(crate) const TWO: &str = "qp = 1
pool = [{ size = 1, blocks = 3 }]
signal = [{ name = 'GO', static = true }, { name = 'N', params = 1 }]
object = [
  { name = 'o1', chart = 'q', priority = 1, queue = 3 },
  { name = 'o2', chart = 'q', priority = 2, queue = 3 },
]
[[chart]]
name = 'q'
init = 's'
state = [{ name = 's' }]
";

/// The system of a file.
pub(crate) fn system(alloc: Global, file: &str) -> Option<System>
    ensures { IfSome result (λ sys. IsSound sys) }
{
    system_of_bytes(alloc, file.as_bytes()).ok()
}

/// The stimuli of a file.
pub(crate) fn stimuli(alloc: Global, sys: &System, file: &str) -> Option<Stimuli>
    requires { IsSound sys.now }
    ensures { IfSome result (λ stim. StimuliFit sys.now stim) }
{
    stimuli_of_bytes(alloc, sys, file.as_bytes()).ok()
}
