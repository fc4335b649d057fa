//! Systems of more than one module.

/// A lamp that a post of GO turns on.
pub(crate) const LAMP: &str = "qp = 1
signal = [{ name = 'GO', static = true }]
chart = [{ name = 'lamp', init = 'off', state = [
  { name = 'off', row = [{ on = 'GO', to = 'on' }] }, { name = 'on' },
] }]
object = [{ name = 'lamp', chart = 'lamp', priority = 1, queue = 1 }]
";

/// Five philosophers and their table, which the file has first.
pub(crate) const TABLE: &str = "qp = 1
pool = [{ size = 1, blocks = 8 }, { size = 3, blocks = 8 }]
signal = [
  { name = 'TIMEOUT', static = true },
  { name = 'EAT', params = 1 },
  { name = 'HUNGRY', params = 3 },
  { name = 'DONE', params = 3 },
]
object = [
  { name = 'table', chart = 'table', priority = 6, queue = 7, defer = 5 },
  { name = 'ann', chart = 'phil', priority = 1, queue = 7, vars = { l = 1, r = 2 } },
  { name = 'bob', chart = 'phil', priority = 2, queue = 7, vars = { l = 2, r = 4 } },
  { name = 'cat', chart = 'phil', priority = 3, queue = 7, vars = { l = 4, r = 8 } },
  { name = 'dan', chart = 'phil', priority = 4, queue = 7, vars = { l = 8, r = 16 } },
  { name = 'eve', chart = 'phil', priority = 5, queue = 7, vars = { l = 16, r = 1 } },
]
[[chart]]
name = 'phil'
init = 'thinking'
init_do = ['subscribe EAT']
vars = { r = 0, l = 0 }
timer = [{ name = 'T', signal = 'TIMEOUT', rate = 0 }]
state = [
  { name = 'thinking', entry = ['arm T(1, 0)'], row = [{ on = 'TIMEOUT', to = 'hungry' }] },
  { name = 'hungry', entry = ['post table HUNGRY(me, l, r)'], row = [{ on = 'EAT', when = 'p1 == me', to = 'eating' }] },
  { name = 'eating', entry = ['arm T(1, 0)'], exit = ['post table DONE(me, l, r)'], row = [{ on = 'TIMEOUT', to = 'thinking' }] },
]
[[chart]]
name = 'table'
init = 'serving'
vars = { used = 0 }
[[chart.state]]
name = 'serving'
row = [
  { on = 'HUNGRY', when = 'used / p2 % 2 == 0 && used / p3 % 2 == 0', do = ['used = used + p2 + p3', 'publish EAT(p1)'] },
  { on = 'HUNGRY', do = ['defer'] },
  { on = 'DONE', do = ['used = used - p2 - p3', 'recall', 'recall', 'recall'] },
]
";
