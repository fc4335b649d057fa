//! Expressions: the value that each line of the grammar gives, each way out of it, and the expressions of worked examples.

ghost use Rattle.std.specs.Prelude.{◌≤◌, length};

use qp_chart::{BindFault, Env, ExprFault, Name, bind, eval, read_expr};
use std::alloc::Global;

fn name(text: &str) -> Name
    requires { length text.now ≤ 24 }
{
    Name::from(text).unwrap()
}

/// The value of an expression of the variables n = 1, total = 6, used = 27 and x = 0, of the parameters 3, 4, 8 and one of 64 set bits,
/// with the last answer -3 and the priority 9.
fn value(alloc: Global, text: &str) -> Option<i64> {
    let expr = read_expr(alloc, text).ok()?;
    let vars = [name("n"), name("total"), name("used"), name("x")];
    let bound = bind(alloc, &expr, &vars, 4).ok()?;
    let env = Env {
        vars: &[1, 6, 27, 0],
        pars: &[3, 4, 8, u64::MAX],
        ok: -3,
        me: 9,
    };
    Some(eval(&bound, &env))
}

const VALUES: [(&str, i64); 77] = [
    // each operator, each kind of atom
    ("0 || 0", 0),
    ("0 || 2", 1),
    ("3 || 0", 1),
    ("1 && 0", 0),
    ("0 && 1", 0),
    ("2 && 4", 1),
    ("2 == 2", 1),
    ("2 == 3", 0),
    ("2 != 2", 0),
    ("2 != 3", 1),
    ("2 < 3", 1),
    ("3 < 3", 0),
    ("3 <= 3", 1),
    ("4 <= 3", 0),
    ("4 > 3", 1),
    ("3 > 3", 0),
    ("3 >= 3", 1),
    ("2 >= 3", 0),
    ("7 + 2", 9),
    ("7 - 9", -2),
    ("7 * 3", 21),
    ("7 / 2", 3),
    ("7 % 4", 3),
    ("-7 / 2", -3),
    ("7 / -2", -3),
    ("-7 % 4", -3),
    ("7 % -4", 3),
    ("-7 % 2", -1),
    ("-5", -5),
    ("--3", 3),
    ("!5", 0),
    ("!0", 1),
    ("!-!0", 0),
    ("9223372036854775807", 9223372036854775807),
    ("0", 0),
    ("(7)", 7),
    ("p3", 8),
    ("p4", -1),
    ("ok", -3),
    ("me", 9),
    ("used", 27),
    ("n - total", -5),
    // values wrap, and a divisor 0 gives 0
    ("7 / 0", 0),
    ("7 % 0", 0),
    ("9223372036854775807 + 1", i64::MIN),
    ("(-9223372036854775807 - 1) / -1", i64::MIN),
    ("(-9223372036854775807 - 1) % -1", 0),
    // products before sums, sums before comparisons, these before `&&`, `&&` before `||`; one line groups from the left
    ("1 || 0 && 0", 1),
    ("0 && 0 || 1", 1),
    ("0 || 2 && 0", 0),
    ("0 == 1 && 0", 0),
    ("2 < 3 || 1 / 0", 1),
    ("1 < 2 && 3 == 3", 1),
    ("1 + 2 == 3", 1),
    ("2 == 1 + 1", 1),
    ("!0 + 1", 2),
    ("1+2*3", 7),
    ("2 + 3 * 4", 14),
    ("(2 + 3) * 4", 20),
    ("(2 + 3) * -4", -20),
    ("9 - 4 - 3", 2),
    ("9 - 4 + 3", 8),
    ("64 / 4 / 2", 8),
    ("17 % 10 % 4", 3),
    ("7 / 2 * 2", 6),
    ("-2 - -3", 1),
    // those of the worked examples
    ("x == 0", 1),
    ("n < 2", 1),
    ("n + 1", 2),
    ("p1 == me", 0),
    ("total + p1", 9),
    ("used / p2 % 2 == 0", 1),
    ("used / p3 % 2 == 0", 0),
    ("used / p2 % 2 == 0 && used / p3 % 2 == 0", 0),
    ("used + p2 + p3", 39),
    ("used - p2 - p3", 15),
    ("p1", 3),
];

/// Each operator and atom, how they group, and the expressions of worked examples.
#[test]
fn values_of_expressions(rt: HostRuntime) {
    for (text, want) in &VALUES {
        assert!(rt; value(rt.alloc(), text) == Some(*want), "{text}");
    }
}

/// Why an expression can't be bound where there are no names and no parameters.
fn unbound(alloc: Global, text: &str) -> Option<BindFault> {
    let expr = read_expr(alloc, text).ok()?;
    bind(alloc, &expr, &[], 0).err()
}

const UNBOUND: [(&str, BindFault); 4] = [
    ("x", BindFault::NoName),
    ("p1", BindFault::NoParameter),
    ("p1 + x", BindFault::NoName),
    ("p9", BindFault::NoName),
];

/// A name that isn't a variable, and a parameter beyond those that there are; the first of two counts.
#[test]
fn names_that_are_not_known(rt: HostRuntime) {
    for (text, want) in &UNBOUND {
        assert!(rt; unbound(rt.alloc(), text) == Some(*want), "{text}");
    }
}

const NO_EXPRESSIONS: [&str; 40] = [
    "",
    " 1",
    "1 ",
    "1 +",
    "+ 1",
    "1 + + 1",
    "1 -",
    "1 *",
    "* 1",
    "1 / ",
    "1 %",
    "1 ||",
    "|| 1",
    "1 || || 1",
    "1 &&",
    "1 && && 1",
    "1 ==",
    "== 1",
    "1 == 2 == 3",
    "1 < 2 >= 3",
    "1 =< 2",
    "1 = 2",
    "1 & 2",
    "1 | 2",
    "-",
    "!",
    "1 !",
    "1 ! 2",
    "()",
    "(1",
    "1)",
    "(1 2)",
    "1 2",
    "x y",
    "1x",
    "01",
    "9223372036854775808",
    "say",
    "abcdefghijklmnopqrstuvwxy",
    "x.y",
];

/// Each way out of the lines of expressions.
#[test]
fn texts_that_are_no_expressions(rt: HostRuntime) {
    for text in &NO_EXPRESSIONS {
        let bad = matches!(read_expr(rt.alloc(), text), Err(ExprFault::Bad));
        assert!(rt; bad, "{text}");
    }
}
