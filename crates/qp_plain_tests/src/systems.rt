//! System files of the tests.

use std::alloc::{AllocError, Global};

/// Signals 4 to 8: GO, X, TA and TB are static, N has one parameter.
const SIGNALS: &str =
    "signal = [{ name = 'GO', static = true }, { name = 'N', params = 1 }, { name = 'X', static = true }, { name = 'TA', static = true }, { name = 'TB', static = true }]
";

/// One object with this queue, two timers of rate 0, and a pool with so many blocks for one parameter.
pub(crate) fn one(alloc: Global, queue: u8, blocks: u8) -> Result<String, AllocError> {
    format!(in alloc;
        "qp = 1
pool = [{{ size = 1, blocks = {blocks} }}]
{SIGNALS}object = [{{ name = 'lamp', chart = 'c', priority = 1, queue = {queue} }}]
[[chart]]
name = 'c'
init = 's'
state = [{{ name = 's' }}]
timer = [{{ name = 'A', signal = 'TA', rate = 0 }}, {{ name = 'B', signal = 'TB', rate = 0 }}]
"
    )
}

/// An object with a ring of one.
fn put_object(text: &mut String, priority: u8) -> Result<(), AllocError> {
    write!(
        text,
        "[[object]]
name = 'o{priority}'
chart = 'c'
priority = {priority}
queue = 1
"
    )
}

/// So many objects, and a pool with two blocks for one parameter.
pub(crate) fn many(alloc: Global, objects: u8) -> Result<String, AllocError> {
    let mut text = format!(in alloc;
        "qp = 1
pool = [{{ size = 1, blocks = 2 }}]
{SIGNALS}[[chart]]
name = 'c'
init = 's'
state = [{{ name = 's' }}]
"
    )?;
    for priority in 1..=objects {
        put_object(&mut text, priority)?;
    }
    Ok(text)
}
