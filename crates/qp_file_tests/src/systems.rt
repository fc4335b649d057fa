//! The systems of the files of worked runs.

use crate::samples::{GEN, LAMP, PAIR, PRIO, SIGNALS, SUM, TABLE, THREE};
use qp_model::{ObjectDef, System, TimerDef};
use qp_system::system_of_bytes;
use std::alloc::{AllocError, Global};
use std::test::Fail;

fn put_object(text: &mut String, alloc: Global, object: &ObjectDef) -> Result<(), AllocError> {
    let name = object.name.as_str();
    let (chart, priority, threshold) = (object.chart, object.priority, object.threshold);
    let (ring, defer, vars) = (object.ring, object.defer, object.vars.items.as_slice());
    let line = format!(in alloc;
        "\n{name} {chart} {priority} {threshold} {ring} {defer} {vars:?}"
    )?;
    text.push_str(line.as_str())
}

fn put_timer(text: &mut String, alloc: Global, timer: &TimerDef) -> Result<(), AllocError> {
    let line = format!(in alloc; "\n{} {} {}", timer.object, timer.sig, timer.rate)?;
    text.push_str(line.as_str())
}

fn put_lines(text: &mut String, alloc: Global, sys: &System) -> Result<(), AllocError> {
    for object in &sys.objects.items {
        put_object(text, alloc, object)?;
    }
    for timer in &sys.timers.items {
        put_timer(text, alloc, timer)?;
    }
    Ok(())
}

/// A line for the counts of pools, signals and charts, one for each object and one for each time event.
fn outline(alloc: Global, sys: &System) -> Result<String, AllocError> {
    let pools = sys.pools.items.len();
    let signals = sys.signals.items.len();
    let charts = sys.charts.items.len();
    let mut text = format!(in alloc; "{pools} {signals} {charts}")?;
    put_lines(&mut text, alloc, sys)?;
    Ok(text)
}

/// What a file of these parts says, or why it is refused.
fn said(alloc: Global, parts: &[&str]) -> Result<String, AllocError> {
    let text = parts.concat(alloc)?;
    match system_of_bytes(alloc, text.as_bytes()) {
        Ok(sys) => outline(alloc, &sys),
        Err(fault) => format!(in alloc; "{fault}"),
    }
}

/// Time events of two charts, whose objects stand in descending priority; one of two first values is replaced.
const TIMES: &str = "chart = [
  { name = 'one', init = 's', vars = { y = -7, x = 3 }, state = [{ name = 's' }], timer = [
    { name = 'B', signal = 'TB', rate = 3 }, { name = 'A', signal = 'TA', rate = 1 },
  ] },
  { name = 'two', init = 's', state = [{ name = 's' }], timer = [{ name = 'A', signal = 'GO', rate = 2 }] },
]
object = [
  { name = 'c', chart = 'one', priority = 32, queue = 0, defer = 255 },
  { name = 'b', chart = 'two', priority = 7, threshold = 9, queue = 255 },
  { name = 'a', chart = 'one', priority = 2, queue = 1, vars = { y = 5 } },
]
pool = [{ size = 1, blocks = 1 }, { size = 8, blocks = 32 }]";

const ONE_BLOCK: &str = "pool = [{ size = 1, blocks = 1 }]\n";

const TWO_BLOCKS: &str = "pool = [{ size = 1, blocks = 2 }]\n";

/// One object `lamp`, whose queue and deferred events follow.
const OBJECT: &str = "object = [{ name = 'lamp', chart = 'c', priority = 1, ";

/// The end of its line, and its chart, whose other keys follow.
const CHART: &str = " }]\n[[chart]]\nname = 'c'\n";

/// The object of priority 1, whose other keys follow.
const LOW: &str = "object = [\n{ name = 'low', chart = 'c', priority = 1, queue = 1";

const OTHERS: &str =
    " },\n{ name = 'three', chart = 'q', priority = 3, queue = 1 },\n{ name = 'top', chart = 'q', priority = 4, queue = 1 },\n]\n";

/// The parts of a file, and what it says.
const FILES: &[(&[&str], &str)] = &[
    (&[LAMP], "0 1 1\nlamp 1 1 1 1 0 []"),
    (&[PAIR], "0 1 2\na 1 1 1 1 0 []\nb 2 2 2 1 0 []"),
    (&[SUM], "1 1 1\nsum 1 1 1 31 0 [0]"),
    (&[GEN], "1 1 2\nsum 1 1 1 15 0 [0]\nrelay 2 2 2 15 0 []"),
    (
        &[SIGNALS, THREE],
        "1 5 2\no1 1 1 1 1 0 []\no2 1 2 2 1 0 []\no3 2 3 3 1 0 [0]",
    ),
    // Objects in ascending priority wherever they stand, variables in ascending name, and time events by object.
    (
        &[TABLE],
        "2 4 2\nann 1 1 1 7 0 [1, 2]\nbob 1 2 2 7 0 [2, 4]\ncat 1 3 3 7 0 [4, 8]\ndan 1 4 4 7 0 [8, 16]\neve 1 5 5 7 0 [16, 1]\ntable 2 6 6 7 5 [0]\n1 4 0\n2 4 0\n3 4 0\n4 4 0\n5 4 0",
    ),
    (
        &[SIGNALS, TIMES],
        "2 5 2\na 1 2 2 1 0 [3, 5]\nb 2 7 9 255 0 []\nc 1 32 32 0 255 [3, -7]\n2 8 3\n2 7 1\n7 4 2\n32 8 3\n32 7 1",
    ),
    // Systems of one object, by its queue and its deferred events.
    (
        &[
            SIGNALS,
            TWO_BLOCKS,
            OBJECT,
            "queue = 1, defer = 0",
            CHART,
            "init = 's'\nstate = [{ name = 's' }]",
        ],
        "1 5 1\nlamp 1 1 1 1 0 []",
    ),
    (
        &[
            SIGNALS,
            TWO_BLOCKS,
            OBJECT,
            "queue = 0, defer = 0",
            CHART,
            "init = 's'\nstate = [{ name = 's', row = [{ on = 'GO', do = ['post me X', 'post me X'] }] }]",
        ],
        "1 5 1\nlamp 1 1 1 0 0 []",
    ),
    (
        &[
            SIGNALS,
            TWO_BLOCKS,
            OBJECT,
            "queue = 1, defer = 0",
            CHART,
            "init = 's'\nstate = [{ name = 's', row = [{ on = 'GO', do = ['post me N(5) margin 1', 'post me N(6) margin 1', 'say ok'] }] }]",
        ],
        "1 5 1\nlamp 1 1 1 1 0 []",
    ),
    (
        &[
            SIGNALS,
            ONE_BLOCK,
            OBJECT,
            "queue = 3, defer = 0",
            CHART,
            "init = 's'\nstate = [{ name = 's', row = [{ on = 'GO', do = ['post me N(1)', 'post me N(2) reserve 0', 'say ok'] }] }]",
        ],
        "1 5 1\nlamp 1 1 1 3 0 []",
    ),
    (
        &[
            SIGNALS,
            TWO_BLOCKS,
            OBJECT,
            "queue = 3, defer = 2",
            CHART,
            "init = 's'\nvars = { n = 0 }\nstate = [{ name = 's', row = [{ on = 'N', when = 'n < 2', do = ['defer', 'n = n + 1'] }, { on = 'GO', do = ['recall', 'flush', 'say ok'] }] }]",
        ],
        "1 5 1\nlamp 1 1 1 3 2 [0]",
    ),
    (
        &[
            SIGNALS,
            TWO_BLOCKS,
            OBJECT,
            "queue = 1, defer = 0",
            CHART,
            "init = 's'\nstate = [{ name = 's', row = [{ on = 'GO', do = ['lifo N(3)'] }, { on = 'N', do = ['say p1'] }] }]",
        ],
        "1 5 1\nlamp 1 1 1 1 0 []",
    ),
    (
        &[
            SIGNALS,
            TWO_BLOCKS,
            OBJECT,
            "queue = 1, defer = 0",
            CHART,
            "init = 's'\ninit_do = ['subscribe N']\nstate = [{ name = 's', row = [{ on = 'GO', do = ['publish N(4)'] }, { on = 'N', do = ['say p1'] }] }]",
        ],
        "1 5 1\nlamp 1 1 1 1 0 []",
    ),
    (
        &[
            SIGNALS,
            TWO_BLOCKS,
            OBJECT,
            "queue = 1, defer = 0",
            CHART,
            "init = 's'\nstate = [{ name = 's', row = [{ on = 'GO', do = ['say -4'] }] }]",
        ],
        "1 5 1\nlamp 1 1 1 1 0 []",
    ),
    // Nested states, and time events.
    (
        &[
            SIGNALS,
            TWO_BLOCKS,
            OBJECT,
            "queue = 3, defer = 0",
            CHART,
            "init = 'c'\nstate = [{ name = 'a', row = [{ on = 'GO', do = ['say 7'] }] }, { name = 'b', parent = 'a' }, { name = 'c', parent = 'b', row = [{ on = 'GO', when = '0', do = ['say 1'] }] }]",
        ],
        "1 5 1\nlamp 1 1 1 3 0 []",
    ),
    (
        &[
            SIGNALS,
            TWO_BLOCKS,
            OBJECT,
            "queue = 3, defer = 0",
            CHART,
            "init = 'f'\nstate = [{ name = 'a' }, { name = 'b', parent = 'a', init = 'e' }, { name = 'c', parent = 'b' }, { name = 'd', parent = 'c' }, { name = 'e', parent = 'd' }, { name = 'f', parent = 'e' }, { name = 'g', parent = 'a' }, { name = 'h', parent = 'g' }, { name = 'k' }]",
        ],
        "1 5 1\nlamp 1 1 1 3 0 []",
    ),
    (
        &[
            SIGNALS,
            TWO_BLOCKS,
            OBJECT,
            "queue = 3, defer = 0",
            CHART,
            "init = 's'\ninit_do = ['arm A(2, 0)', 'arm B(2, 2)']\ntimer = [{ name = 'A', signal = 'TA', rate = 0 }, { name = 'B', signal = 'TB', rate = 0 }]\nstate = [{ name = 's', row = [{ on = 'GO', do = ['disarm A', 'say ok', 'arm B(1, 0)'] }] }]",
        ],
        "1 5 1\nlamp 1 1 1 3 0 []\n1 7 0\n1 8 0",
    ),
    // Three objects of the priorities 1, 3 and 4. A threshold is the priority where the file has none.
    (
        &[SIGNALS, PRIO, LOW, OTHERS],
        "1 5 2\nlow 1 1 1 1 0 []\nthree 2 3 3 1 0 []\ntop 2 4 4 1 0 []",
    ),
    (
        &[SIGNALS, PRIO, LOW, ", threshold = 3", OTHERS],
        "1 5 2\nlow 1 1 3 1 0 []\nthree 2 3 3 1 0 []\ntop 2 4 4 1 0 []",
    ),
];

#[test]
fn systems(rt: HostRuntime) -> Result<(), Fail> {
    for (parts, want) in FILES {
        let found = said(rt.alloc(), parts)?;
        assert!(rt; found.as_str() == *want, "{found} of {parts:?}");
    }
    Ok(())
}
