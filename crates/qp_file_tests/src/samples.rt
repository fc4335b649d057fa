//! System files.

/// A lamp that a post of GO turns on.
pub const LAMP: &str = "qp = 1
[[signal]]
name = 'GO'
static = true
[[chart]]
name = 'lamp'
init = 'off'
[[chart.state]]
name = 'off'
[[chart.state.row]]
on = 'GO'
to = 'on'
[[chart.state]]
name = 'on'
[[object]]
name = 'lamp'
chart = 'lamp'
priority = 1
queue = 1
";

/// Signals of most files: GO, X, TA and TB are static, and N has one parameter.
pub const SIGNALS: &str = "qp = 1
signal = [
  { name = 'GO', static = true },
  { name = 'N', params = 1 },
  { name = 'X', static = true },
  { name = 'TA', static = true },
  { name = 'TB', static = true },
]
";

/// Events without parameters, with one, and with two; objects of the priorities 1 and 9.
pub const SIGNALS_OF_STIMULI: &str = "qp = 1
pool = [{ size = 2, blocks = 1 }]
signal = [{ name = 'GO', static = true }, { name = 'N', params = 1 }, { name = 'M', params = 2 }]
chart = [{ name = 'c', init = 's', state = [{ name = 's' }] }]
object = [{ name = 'lamp', chart = 'c', priority = 1, queue = 1 }, { name = 'top', chart = 'c', priority = 9, queue = 1 }]
";

/// Charts that subscribe to N; the third object has one that forwards its first N to itself.
pub const THREE: &str = "
pool = [{ size = 1, blocks = 2 }]
chart = [
  { name = 'q', init = 's', init_do = ['subscribe N'], state = [{ name = 's' }] },
  { name = 'h', init = 's', init_do = ['subscribe N'], vars = { x = 0 }, state = [
    { name = 's', row = [{ on = 'N', when = 'x == 0', do = ['x = 1', 'forward me'] }] },
  ] },
]
object = [
  { name = 'o1', chart = 'q', priority = 1, queue = 1 },
  { name = 'o2', chart = 'q', priority = 2, queue = 1 },
  { name = 'o3', chart = 'h', priority = 3, queue = 1 },
]
";

/// The charts of objects of three priorities, the lowest of which locks.
pub const PRIO: &str = "
pool = [{ size = 1, blocks = 2 }]
chart = [
  { name = 'c', init = 's', state = [
    { name = 's', row = [{ on = 'GO', do = [
      'post top X', 'locked 3 [post three X; post top X; say 1]', 'say 2',
    ] }] },
  ] },
  { name = 'q', init = 's', state = [{ name = 's' }] },
]
";

/// Two objects that post PING to each other.
pub const PAIR: &str = "qp = 1
signal = [{ name = 'PING', static = true }]
chart = [
  { name = 'ca', init = 's', state = [{ name = 's', row = [{ on = 'PING', do = ['post b PING'] }] }] },
  { name = 'cb', init = 's', state = [{ name = 's', row = [{ on = 'PING', do = ['post a PING'] }] }] },
]
object = [
  { name = 'a', chart = 'ca', priority = 1, queue = 1 },
  { name = 'b', chart = 'cb', priority = 2, queue = 1 },
]
";

/// An object that sums up.
pub const SUM: &str = "qp = 1
pool = [{ size = 1, blocks = 32 }]
signal = [{ name = 'ADD', params = 1 }]
chart = [{ name = 'sum', init = 'wait', vars = { total = 0 }, state = [
  { name = 'wait', row = [{ on = 'ADD', do = ['total = total + p1'] }] },
] }]
object = [{ name = 'sum', chart = 'sum', priority = 1, queue = 31 }]
";

/// An object that sums up, and one that forwards to it.
pub const GEN: &str = "qp = 1
pool = [{ size = 1, blocks = 8 }]
signal = [{ name = 'ADD', params = 1 }]
chart = [
  { name = 'sum', init = 'wait', vars = { total = 0 }, state = [
    { name = 'wait', row = [{ on = 'ADD', do = ['total = total + p1'] }] },
  ] },
  { name = 'relay', init = 'wait', state = [{ name = 'wait', row = [{ on = 'ADD', do = ['forward sum'] }] }] },
]
object = [
  { name = 'sum', chart = 'sum', priority = 1, queue = 15 },
  { name = 'relay', chart = 'relay', priority = 2, queue = 15 },
]
";

/// Five philosophers and their table, which the file has first.
pub const TABLE: &str = "qp = 1
pool = [{ size = 1, blocks = 8 }, { size = 3, blocks = 8 }]
signal = [
  { name = 'TIMEOUT', static = true },
  { name = 'EAT', params = 1 },
  { name = 'HUNGRY', params = 3 },
  { name = 'DONE', params = 3 },
]
object = [
  { name = 'table', chart = 'table', priority = 6, queue = 7, defer = 5 },
  { name = 'ann', chart = 'phil', priority = 1, queue = 7, vars = { l = 1, r = 2 } },
  { name = 'bob', chart = 'phil', priority = 2, queue = 7, vars = { l = 2, r = 4 } },
  { name = 'cat', chart = 'phil', priority = 3, queue = 7, vars = { l = 4, r = 8 } },
  { name = 'dan', chart = 'phil', priority = 4, queue = 7, vars = { l = 8, r = 16 } },
  { name = 'eve', chart = 'phil', priority = 5, queue = 7, vars = { l = 16, r = 1 } },
]
[[chart]]
name = 'phil'
init = 'thinking'
init_do = ['subscribe EAT']
vars = { r = 0, l = 0 }
timer = [{ name = 'T', signal = 'TIMEOUT', rate = 0 }]
state = [
  { name = 'thinking', entry = ['arm T(1, 0)'], row = [{ on = 'TIMEOUT', to = 'hungry' }] },
  { name = 'hungry', entry = ['post table HUNGRY(me, l, r)'], row = [{ on = 'EAT', when = 'p1 == me', to = 'eating' }] },
  { name = 'eating', entry = ['arm T(1, 0)'], exit = ['post table DONE(me, l, r)'], row = [{ on = 'TIMEOUT', to = 'thinking' }] },
]
[[chart]]
name = 'table'
init = 'serving'
vars = { used = 0 }
[[chart.state]]
name = 'serving'
row = [
  { on = 'HUNGRY', when = 'used / p2 % 2 == 0 && used / p3 % 2 == 0', do = ['used = used + p2 + p3', 'publish EAT(p1)'] },
  { on = 'HUNGRY', do = ['defer'] },
  { on = 'DONE', do = ['used = used - p2 - p3', 'recall', 'recall', 'recall'] },
]
";

/// What stands before the one chart of a file, which is the last table: GO is 4, N is 5, TICK is 6, and there is one object.
pub const CHART: &str = "qp = 1
pool = [{ size = 1, blocks = 1 }]
signal = [{ name = 'GO', static = true }, { name = 'N', params = 1 }, { name = 'TICK', static = true }]
object = [{ name = 'lamp', chart = 'c', priority = 3, queue = 1 }]
[[chart]]
name = 'c'
vars = { x = 0, y = 0 }
";

/// A tree of nine states, six of them within one another: a to f, g and h within a, and k beside a. The second one has the initial
/// target e.
pub const TREE: &str = "init = 'f'
state = [
  { name = 'a' },
  { name = 'b', parent = 'a', init = 'e' },
  { name = 'c', parent = 'b' },
  { name = 'd', parent = 'c' },
  { name = 'e', parent = 'd' },
  { name = 'f', parent = 'e' },
  { name = 'g', parent = 'a' },
  { name = 'h', parent = 'g' },
  { name = 'k' },
]
";
