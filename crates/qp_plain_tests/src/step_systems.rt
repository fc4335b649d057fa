//! Parts of system files.

pub(crate) const ONE_BLOCK: &str = "qp = 1
pool = [{ size = 1, blocks = 1 }]
";

pub(crate) const TWO_BLOCKS: &str = "qp = 1
pool = [{ size = 1, blocks = 2 }]
";

/// Signals 4 to 8: GO, X, TA and TB are static, N has one parameter.
pub(crate) const SIGNALS: &str =
    "signal = [{ name = 'GO', static = true }, { name = 'N', params = 1 }, { name = 'X', static = true }, { name = 'TA', static = true }, { name = 'TB', static = true }]
";

/// Object 1, with room for one entry in its queue and in its deferred list, and object 2, with room for one entry.
const PAIR: &str =
    "object = [{ name = 'lamp', chart = 'c', priority = 1, queue = 0, defer = 1 }, { name = 'peer', chart = 'q', priority = 2, queue = 0 }]
[[chart]]
name = 'c'
init = 's'
init_do = [";

/// Timers 1 and 2 of object 1, and its row.
const ROW: &str = "]
timer = [{ name = 'A', signal = 'TA', rate = 0 }, { name = 'B', signal = 'TB', rate = 0 }]
state = [{ name = 's', row = [{ on = 'GO', do = [";

const PEER: &str = "] }] }]
[[chart]]
name = 'q'
init = 's'
state = [{ name = 's' }]
";

/// Two objects, the first with these initial actions and one row, on GO.
pub(crate) const fn pair<'a>(init_do: &'a str, acts: &'a str) -> [&'a str; 7] {
    [ONE_BLOCK, SIGNALS, PAIR, init_do, ROW, acts, PEER]
}
