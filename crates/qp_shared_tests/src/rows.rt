//! Worked examples over two lanes on one thread.

ghost use Rattle.qp_model.specs.Sound.{IsSound};
ghost use Rattle.qp_stim.specs.Rules.{StimuliFit};

use crate::judged::broken;
use crate::kernel::run;
use crate::shown::shown;
use crate::systems::{THREE, one, stimuli, system};
use qp_model::{Journal, Rec, Stimuli, System};
use std::alloc::{AllocError, Global};
use std::sync::Wait;

/// A system, its stimuli, and what its two lanes then have. The records of the kernel's lane end so; those of the source's lane begin so.
struct Row {
    name: &'static str,
    file: File,
    stimuli: &'static str,
    /// Whether the records of rows of looks are among those of the kernel's lane.
    looks: bool,
    kernel: &'static str,
    source: &'static str,
    end: u8,
}

/// The file of a system.
enum File {
    /// One object with this queue, this list and so many blocks, and what stands in its chart.
    One(u8, u8, u8, &'static str),
    /// Three objects that subscribe.
    Three,
}

fn text(alloc: Global, file: &File) -> Result<String, AllocError> {
    match file {
        File::One(queue, defer, blocks, chart) => one(alloc, *queue, *defer, *blocks, chart),
        File::Three => String::from_str(alloc, THREE),
    }
}

const ROWS: &[Row] = &[
    Row {
        name: "a post refused at its margin",
        file: File::One(
            1,
            0,
            2,
            "state = [{ name = 's', row = [{ on = 'GO', do = ['post me N(5) margin 1', 'post me N(6) margin 1', 'say ok'] }] }]",
        ),
        stimuli: "source 1\npost lamp GO\n",
        looks: true,
        kernel: "took 1 1 0 1 0 4 0, run 1 1 1, new 1 1 0 0 0 5 5, inc 1 1 0 0, post 1 1 2 0 1 1 0 0, look 0 2 1, new 1 1 1 1 0 5 6, inc 1 1 1 0, full 1 1 2 0 1 1, dec 1 1 1 1 0, back 1 1 2 1 2, look 0 3 1, say 1 0, look 0 4 1, done 1, look 0 5 0, seen 0 1 2 0 1, took 1 2 0 2 1 0 0, none 1, done 1, dec 1 1 0 1 0, back 1 1 3 0 2, look 0 6 0, seen 0 1 2 0 2",
        source: "stim 0 1 0, post 0 1 1 0 0 0 4 0",
        end: 0,
    },
    Row {
        name: "recall and flush",
        file: File::One(
            3,
            2,
            2,
            "vars = { n = 0 }\nstate = [{ name = 's', row = [{ on = 'N', when = 'n < 2', do = ['defer', 'n = n + 1'] }, { on = 'GO', do = ['recall', 'flush', 'say ok'] }] }]",
        ),
        stimuli: "source 1\npost lamp N(1)\npost lamp N(2)\npost lamp GO\n",
        looks: false,
        kernel: "took 1 3 0 3 0 4 0, run 1 1 2, recall 1 1 0 1, inc 1 1 0 3, lifo 1 3 1 3 1 0 3, dec 1 1 0 4 1, flush 1 1 1 1, dec 1 1 1 3 1, back 1 1 2 1 4, say 1 1, done 1, took 1 3 1 4 1 0 3, none 1, done 1, dec 1 1 0 5 3, back 1 1 3 0 6",
        source: "stim 0 1 0, new 0 1 0 0 0 5 1, inc 0 1 0 0, post 0 1 1 0 0 1 0 0, stim 0 2 0, new 0 1 1 1 0 5 2, inc 0 1 1 0, post 0 1 2 0 0 1 1 0, stim 0 3 0, post 0 1 3 0 0 0 4 0",
        end: 0,
    },
    Row {
        name: "an assertion of a queue",
        file: File::One(
            0,
            0,
            2,
            "state = [{ name = 's', row = [{ on = 'GO', do = ['post me X', 'post me X'] }] }]",
        ),
        stimuli: "source 1\npost lamp GO\n",
        looks: true,
        kernel: "look 0 1 0, seen 0 1 1 0 0, took 1 1 0 1 0 4 0, run 1 1 1, post 1 1 2 0 1 0 6 0, look 0 2 1, assert 1 1 1 2 0 1",
        source: "stim 0 1 0, post 0 1 1 0 0 0 4 0",
        end: 3,
    },
    Row {
        name: "a give refused at its reserve",
        file: File::One(
            3,
            0,
            1,
            "state = [{ name = 's', row = [{ on = 'GO', do = ['post me N(1)', 'post me N(2) reserve 0', 'say ok'] }] }]",
        ),
        stimuli: "source 1\npost lamp GO\n",
        looks: false,
        kernel: "took 1 1 0 1 0 4 0, run 1 1 1, new 1 1 0 0 0 5 1, inc 1 1 0 0, post 1 1 2 0 1 1 0 0, short 1 1 1 0 0, say 1 0, done 1, took 1 2 0 2 1 0 0, none 1, done 1, dec 1 1 0 1 0, back 1 1 1 0 2",
        source: "stim 0 1 0, post 0 1 1 0 0 0 4 0",
        end: 0,
    },
    Row {
        name: "an assertion of a pool",
        file: File::One(
            3,
            0,
            1,
            "state = [{ name = 's', row = [{ on = 'GO', do = ['post me N(1)', 'post me N(2)', 'say ok'] }] }]",
        ),
        stimuli: "source 1\npost lamp GO\n",
        looks: false,
        kernel: "took 1 1 0 1 0 4 0, run 1 1 1, new 1 1 0 0 0 5 1, inc 1 1 0 0, post 1 1 2 0 1 1 0 0, assert 1 2 1 1 0",
        source: "stim 0 1 0, post 0 1 1 0 0 0 4 0",
        end: 3,
    },
    Row {
        name: "an assertion of a last-in post",
        file: File::One(
            0,
            0,
            2,
            "state = [{ name = 's', row = [{ on = 'GO', do = ['post me X', 'lifo X'] }] }]",
        ),
        stimuli: "source 1\npost lamp GO\n",
        looks: false,
        kernel: "took 1 1 0 1 0 4 0, run 1 1 1, post 1 1 2 0 1 0 6 0, assert 1 5 1 2 0 1",
        source: "stim 0 1 0, post 0 1 1 0 0 0 4 0",
        end: 3,
    },
    Row {
        name: "time events",
        file: File::One(
            3,
            0,
            2,
            "init_do = ['arm A(2, 0)', 'arm B(2, 2)']\nstate = [{ name = 's', row = [{ on = 'GO', do = ['disarm A', 'say ok', 'arm B(1, 0)'] }] }]\ntimer = [{ name = 'A', signal = 'TA', rate = 0 }, { name = 'B', signal = 'TB', rate = 0 }]",
        ),
        stimuli: "source 1\ntick 0\ntick 0\npost lamp GO\n",
        looks: false,
        kernel: "idle 1 1 3, say 1 0, assert 1 3 2 3 2",
        source: "stim 0 1 0, tick 0 1 1 1, tick 0 2 1 1, stim 0 2 0, fire 0 1 2 0, post 0 1 1 0 0 0 7 0, fire 0 2 2 2, post 0 1 2 0 0 0 8 0",
        end: 3,
    },
    Row {
        name: "subscriptions, and a time event set again",
        file: File::One(
            1,
            0,
            2,
            "state = [{ name = 's', row = [{ on = 'N', do = ['say p1', 'unsubscribe N', 'subscribe N', 'unsubscribe N', 'rearm A(5)', 'disarm A', 'say ok'] }] }]\ntimer = [{ name = 'A', signal = 'TA', rate = 0 }]",
        ),
        stimuli: "source 1\npost lamp N(7)\n",
        looks: false,
        kernel: "took 1 1 0 1 1 0 0, run 1 1 1, say 1 7, same 1 5 0, sub 1 5 0, unsub 1 5 1, rearm 1 1 0 0 5, disarm 1 1 1 5, say 1 1, done 1, dec 1 1 0 1 0, back 1 1 1 0 2",
        source: "stim 0 1 0, new 0 1 0 0 0 5 7, inc 0 1 0 0, post 0 1 1 0 0 1 0 0",
        end: 0,
    },
    Row {
        name: "a publication to three",
        file: File::Three,
        stimuli: "source 1\npublish N(7)\n",
        looks: false,
        kernel: "took 3 1 0 1 1 0 1, run 3 1 1, inc 3 1 0 5, post 3 3 2 0 1 1 0 5, done 3, dec 3 1 0 6 1, took 3 2 0 2 1 0 5, none 3, done 3, dec 3 1 0 7 5, took 2 1 0 1 1 0 2, none 2, done 2, dec 2 1 0 8 2, took 1 1 0 1 1 0 3, none 1, done 1, dec 1 1 0 9 3, back 1 1 1 0 10",
        source: "stim 0 1 0, new 0 1 0 0 0 5 7, inc 0 1 0 0, pub 0 5 3 7, inc 0 1 0 1, post 0 3 1 0 0 1 0 1, inc 0 1 0 2, post 0 2 1 0 0 1 0 2, inc 0 1 0 3, post 0 1 1 0 0 1 0 3, dec 0 1 0 4 0",
        end: 0,
    },
];

/// Whether the records of a lane begin so.
fn begin(alloc: Global, records: &[Rec], text: &str) -> bool {
    shown(alloc, records, true).as_str().starts_with(text)
}

/// Whether the records of a lane end so, with those of rows of looks or without them.
fn end(alloc: Global, records: &[Rec], looks: bool, text: &str) -> bool {
    shown(alloc, records, looks).as_str().ends_with(text)
}

/// How the journal differs from what the row says of its end and of the records of its lanes.
fn differs(alloc: Global, journal: &Journal, row: &Row) -> &'static str {
    let [kernel, source] = journal.lanes.items.as_slice() else {
        return "other lanes";
    };
    if journal.end != row.end {
        return "another end";
    }
    if !begin(alloc, source.items.as_slice(), row.source) {
        return "other records of the source's lane";
    }
    if !end(alloc, kernel.items.as_slice(), row.looks, row.kernel) {
        return "other records of the kernel's lane";
    }
    ""
}

/// What is wrong with the journal of a row.
fn wrong(alloc: Global, sys: &System, stim: &Stimuli, journal: &Journal, row: &Row) -> &'static str
    requires sound { IsSound sys.now }
    requires fit { StimuliFit sys.now stim.now }
{
    if broken(alloc, sys, stim, journal) != Some(0) {
        return "not lawful";
    }
    differs(alloc, journal, row)
}

/// The same, where the journal is that of a run.
fn wrong_in_run<R: Wait>(
    rt: &R,
    alloc: Global,
    sys: &System,
    stim: &Stimuli,
    row: &Row,
) -> &'static str
    requires sound { IsSound sys.now }
    requires fit { StimuliFit sys.now stim.now }
{
    match run(rt, alloc, sys, stim) {
        Some(sealed) => wrong(alloc, sys, stim, sealed.journal(), row),
        None => "memory",
    }
}

/// The same, where the stimuli are read first.
fn wrong_in_system<R: Wait>(rt: &R, alloc: Global, sys: &System, row: &Row) -> &'static str
    requires { IsSound sys.now }
{
    match stimuli(alloc, sys, row.stimuli) {
        Some(stim) => wrong_in_run(rt, alloc, sys, &stim, row),
        None => "stimuli",
    }
}

/// The same, where the system is read from its file first.
fn wrong_in_file<R: Wait>(rt: &R, alloc: Global, file: &str, row: &Row) -> &'static str {
    match system(alloc, file) {
        Some(sys) => wrong_in_system(rt, alloc, &sys, row),
        None => "system",
    }
}

/// The same, where the file is written first.
fn wrong_in_row<R: Wait>(rt: &R, alloc: Global, row: &Row) -> &'static str {
    match text(alloc, &row.file) {
        Ok(file) => wrong_in_file(rt, alloc, file.as_str(), row),
        Err(_) => "memory",
    }
}

#[test]
fn rows_have_their_records_over_two_lanes(rt: HostRuntime) {
    for row in ROWS {
        assert_eq!(rt; wrong_in_row(&rt, rt.alloc(), row), "", "{}", row.name);
    }
}
