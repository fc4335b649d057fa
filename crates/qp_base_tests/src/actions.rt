//! Texts of actions: each alternative of the grammar, each way out of it, and the actions of worked examples.

use qp_chart::{Action, ExprFault, PlainAction, read_action};
use std::alloc::Global;

#[derive(Clone, Copy, PartialEq, Eq)]
enum Kind {
    Set,
    Say,
    Post,
    Lifo,
    Forward,
    Publish,
    Defer,
    Recall,
    Flush,
    Subscribe,
    Unsubscribe,
    Arm,
    Rearm,
    Disarm,
    Locked,
}

/// What is seen of an action: its kind, its margin, its reserve, and how many parameters its event has. Of `locked` the
/// margin is the ceiling, and the actions are counted.
#[derive(Clone, Copy, PartialEq, Eq)]
struct Shape {
    kind: Kind,
    margin: Option<i64>,
    reserve: Option<i64>,
    count: usize,
}

/// An action without margin, reserve or parameters.
const fn bare(kind: Kind) -> Shape {
    Shape {
        kind,
        margin: None,
        reserve: None,
        count: 0,
    }
}

fn shape_of_plain(plain: &PlainAction) -> Shape {
    match plain {
        PlainAction::Set { .. } => bare(Kind::Set),
        PlainAction::Say(_) => bare(Kind::Say),
        PlainAction::Post {
            event,
            margin,
            reserve,
            ..
        } => Shape {
            kind: Kind::Post,
            margin: *margin,
            reserve: *reserve,
            count: event.pars.as_slice().len(),
        },
        PlainAction::Lifo { event, reserve } => Shape {
            kind: Kind::Lifo,
            margin: None,
            reserve: *reserve,
            count: event.pars.as_slice().len(),
        },
        PlainAction::Forward { margin, .. } => Shape {
            margin: *margin,
            ..bare(Kind::Forward)
        },
        PlainAction::Publish { event, reserve } => Shape {
            kind: Kind::Publish,
            margin: None,
            reserve: *reserve,
            count: event.pars.as_slice().len(),
        },
        PlainAction::Defer => bare(Kind::Defer),
        PlainAction::Recall => bare(Kind::Recall),
        PlainAction::Flush => bare(Kind::Flush),
        PlainAction::Subscribe(_) => bare(Kind::Subscribe),
        PlainAction::Unsubscribe(_) => bare(Kind::Unsubscribe),
        PlainAction::Arm { .. } => bare(Kind::Arm),
        PlainAction::Rearm { .. } => bare(Kind::Rearm),
        PlainAction::Disarm { .. } => bare(Kind::Disarm),
    }
}

fn shape_of(action: &Action) -> Shape {
    match action {
        Action::Plain(plain) => shape_of_plain(plain),
        Action::Locked { ceiling, acts } => Shape {
            kind: Kind::Locked,
            margin: Some(*ceiling),
            reserve: None,
            count: acts.as_slice().len(),
        },
    }
}

/// An alternative of the grammar: a text, and the kind, margin, reserve and count that it has.
type Case = (&'static str, Kind, Option<i64>, Option<i64>, usize);

const ALTERNATIVES: [Case; 29] = [
    ("x = 1", Kind::Set, None, None, 0),
    ("say -1", Kind::Say, None, None, 0),
    ("post lamp N", Kind::Post, None, None, 0),
    ("post me N", Kind::Post, None, None, 0),
    ("post lamp N(1)", Kind::Post, None, None, 1),
    ("post lamp N(1, x)", Kind::Post, None, None, 2),
    ("post lamp N margin 3", Kind::Post, Some(3), None, 0),
    ("post lamp N reserve 4", Kind::Post, None, Some(4), 0),
    (
        "post lamp N margin 3 reserve 4",
        Kind::Post,
        Some(3),
        Some(4),
        0,
    ),
    (
        "post me N(1,2,3) margin 300 reserve 0",
        Kind::Post,
        Some(300),
        Some(0),
        3,
    ),
    ("lifo N", Kind::Lifo, None, None, 0),
    ("lifo N(3)", Kind::Lifo, None, None, 1),
    ("lifo N reserve 4", Kind::Lifo, None, Some(4), 0),
    ("forward lamp", Kind::Forward, None, None, 0),
    ("forward me", Kind::Forward, None, None, 0),
    ("forward lamp margin 3", Kind::Forward, Some(3), None, 0),
    ("publish N", Kind::Publish, None, None, 0),
    ("publish N((1), 2)", Kind::Publish, None, None, 2),
    ("publish N reserve 4", Kind::Publish, None, Some(4), 0),
    ("defer", Kind::Defer, None, None, 0),
    ("recall", Kind::Recall, None, None, 0),
    ("flush", Kind::Flush, None, None, 0),
    ("subscribe N", Kind::Subscribe, None, None, 0),
    ("unsubscribe N", Kind::Unsubscribe, None, None, 0),
    ("arm T(1, 0)", Kind::Arm, None, None, 0),
    ("rearm T(1)", Kind::Rearm, None, None, 0),
    ("disarm T", Kind::Disarm, None, None, 0),
    ("locked 3 [say 1]", Kind::Locked, Some(3), None, 1),
    (
        "locked 300 [defer; recall; flush]",
        Kind::Locked,
        Some(300),
        None,
        3,
    ),
];

/// Whether a text is an action of which this is seen.
fn is_seen(alloc: Global, text: &str, want: &Shape) -> bool {
    match read_action(alloc, text) {
        Ok(action) => shape_of(&action) == *want,
        Err(_) => false,
    }
}

/// Each alternative of the lines of actions.
#[test]
fn alternatives_of_actions(rt: HostRuntime) {
    for (text, kind, margin, reserve, count) in &ALTERNATIVES {
        let want = Shape {
            kind: *kind,
            margin: *margin,
            reserve: *reserve,
            count: *count,
        };
        assert!(rt; is_seen(rt.alloc(), text, &want), "{text}");
    }
}

const ACTIONS: [&str; 62] = [
    "x = 1",
    "n = n + 1",
    "total = total + p1",
    "used = used + p2 + p3",
    "used = used - p2 - p3",
    "say 1",
    "say 2",
    "say 7",
    "say -4",
    "say ok",
    "say p1",
    "post me X",
    "post me GO",
    "post a PING",
    "post b PING",
    "post top X",
    "post me N(1)",
    "post me N(5) margin 1",
    "post me N(6) margin 1",
    "post me N(2) reserve 0",
    "post table HUNGRY(me, l, r)",
    "post table DONE(me, l, r)",
    "lifo N(3)",
    "forward me",
    "forward sum",
    "publish N(4)",
    "publish EAT(p1)",
    "defer",
    "recall",
    "flush",
    "subscribe N",
    "subscribe EAT",
    "arm A(2, 0)",
    "arm B(0, 0)",
    "arm B(1, 0)",
    "arm B(2, 2)",
    "arm T(1, 0)",
    "disarm A",
    "locked 3 [post three X; post top X; say 1]",
    "locked 32 [publish N(1); publish N(2); publish N(3)]",
    "x=1",
    "p0 = p9 + p10",
    "say(1)",
    "say ((((((((((((((((1))))))))))))))))",
    "say -(-(-(-(-(-(-(-1)))))))",
    "post me E",
    "post a E(1, 2) margin 3 reserve 4",
    "post a E reserve 999",
    "lifo E(p1) reserve 0",
    "forward a margin 1",
    "publish E",
    "subscribe S",
    "unsubscribe S",
    "rearm T(x)",
    "disarm T",
    "locked 3 [say 1]",
    "locked 3[say 1;defer]",
    "say --3",
    "say p10",
    "lifo N",
    "post me N(1, 2, 3, 4, 5, 6, 7, 8)",
    "unsubscribe N",
];

fn is_read(alloc: Global, text: &str) -> bool {
    read_action(alloc, text).is_ok()
}

/// The actions of the worked examples, and the edges of the grammar: spaces may be left out, and sixteen levels are allowed.
#[test]
fn texts_that_are_actions(rt: HostRuntime) {
    for text in &ACTIONS {
        assert!(rt; is_read(rt.alloc(), text), "{text}");
    }
}

const NO_ACTIONS: [&str; 104] = [
    "x",
    "x =",
    "= 1",
    "1 = x",
    "x = 1 = 2",
    "x = 1;",
    "ok = 1",
    "say = 1",
    "reserve = 1",
    "post",
    "post N",
    "post 1 N",
    "post p1 N",
    "post lamp me",
    "post lamp p1",
    "post lamp N(",
    "post lamp N(1",
    "post lamp N(,1)",
    "post lamp N(1 2)",
    "post lamp N 1",
    "post lamp, N",
    "post lamp N margin",
    "post lamp N margin x",
    "post lamp N margin -1",
    "post lamp N margin 01",
    "post lamp N margin 1 margin 1",
    "post lamp N reserve",
    "post lamp N reserve 1 reserve 1",
    "lifo",
    "lifo me N",
    "lifo N reserve",
    "lifo N()",
    "forward ok",
    "forward lamp N",
    "forward lamp margin",
    "forward lamp reserve 1",
    "publish",
    "publish lamp N",
    "publish N reserve",
    "recall 1",
    "flush x",
    "subscribe",
    "subscribe N(1)",
    "subscribe N, N",
    "unsubscribe",
    "unsubscribe me",
    "arm",
    "arm T",
    "arm T()",
    "arm T(1, 0",
    "arm T(1, 0, 0)",
    "arm (1, 0)",
    "rearm T()",
    "rearm T(1, 0)",
    "disarm T(1)",
    "disarm me",
    "locked",
    "locked 1",
    "",
    " defer",
    "defer ",
    "say\t1",
    "say",
    "say 1 2",
    "say 1 +",
    "say 01",
    "say 9223372036854775808",
    "say 1 < 2 < 3",
    "say (1",
    "say a & b",
    "say \u{e9}",
    "say (((((((((((((((((1)))))))))))))))))",
    "say -(-(-(-(-(-(-(-(-1))))))))",
    "x == 1",
    "me = 1",
    "p1 = 1",
    "margin = 1",
    "abcdefghijklmnopqrstuvwxy = 1",
    "post me",
    "post ok E",
    "post me E()",
    "post me E(1,)",
    "post me E reserve 1 margin 1",
    "lifo E margin 1",
    "forward",
    "publish E margin 1",
    "defer 1",
    "subscribe me",
    "arm T(1)",
    "rearm T",
    "disarm",
    "locked [defer]",
    "locked 1 []",
    "locked 1 [defer",
    "locked 1 [locked 2 [defer]]",
    "locked 1 defer",
    "locked x [defer]",
    "locked -1 [defer]",
    "locked 01 [defer]",
    "locked 9223372036854775808 [defer]",
    "locked 1 [;]",
    "locked 1 [defer;]",
    "locked 1 [defer, defer]",
    "locked 1 [defer] defer",
];

fn is_bad(alloc: Global, text: &str) -> bool {
    matches!(read_action(alloc, text), Err(ExprFault::Bad))
}

/// Each way out of the lines of actions.
#[test]
fn texts_that_are_no_actions(rt: HostRuntime) {
    for text in &NO_ACTIONS {
        assert!(rt; is_bad(rt.alloc(), text), "{text}");
    }
}
