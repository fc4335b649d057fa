//! The two files.

ghost use Rattle.std.specs.Prelude.{◌≡◌, ◌+◌, ◌*◌, ◌%◌, ◌++◌, ◌≤◌, IfOk, OnOk, string_bytes};
ghost use Rattle.qp_system.specs.Files.{post_lines, posts_text, source_text, stimuli_text, system_text};

use std::alloc::{AllocError, Global};

/// The system file: `relay` forwards to `sum` what it is posted, and `sum` adds it up.
pub(crate) fn system_text() -> &'static str
    ensures { result.now ≡ system_text }
{
    "qp = 1\npool = [{ size = 1, blocks = 8 }]\nsignal = [{ name = 'ADD', params = 1 }]\n[[chart]]\nname = 'sum'\ninit = 'wait'\nvars = { total = 0 }\n[[chart.state]]\nname = 'wait'\nrow = [{ on = 'ADD', do = ['total = total + p1'] }]\n[[chart]]\nname = 'relay'\ninit = 'wait'\n[[chart.state]]\nname = 'wait'\nrow = [{ on = 'ADD', do = ['forward sum'] }]\n[[object]]\nname = 'sum'\nchart = 'sum'\npriority = 1\nqueue = 15\n[[object]]\nname = 'relay'\nchart = 'relay'\npriority = 2\nqueue = 15\n"
}

/// Appends a post, and that the source waits behind it.
fn push_post(text: &mut String, k: u32, i: u32) -> Result<(), AllocError>
    requires times { k ≤ 1000 }
    requires source { i ≤ 4 }
    ensures { OnOk result (string_bytes text.new ≡ string_bytes text.old ++ post_lines k i) }
{
    let value = (4 * k + i) * 7919 % 1000;
    write!(text, "post relay ADD({value})\nsettle\n")
}

/// Appends the posts of source `i`.
fn push_posts(text: &mut String, n: u32, i: u32) -> Result<(), AllocError>
    requires times { n ≤ 1000 }
    requires source { i ≤ 4 }
    ensures { OnOk result (string_bytes text.new ≡ string_bytes text.old ++ posts_text n i) }
{
    for k in 0..n {
        push_post(text, k, i)?;
    }
    Ok(())
}

/// Appends source `i`.
fn push_source(text: &mut String, n: u32, i: u32) -> Result<(), AllocError>
    requires times { n ≤ 1000 }
    requires source { i ≤ 4 }
    ensures { OnOk result (string_bytes text.new ≡ string_bytes text.old ++ source_text n i) }
{
    write!(text, "source {i}\n")?;
    push_posts(text, n, i)
}

/// The stimulus file, with `n` posts of each of four sources.
pub(crate) fn stimuli_text(alloc: Global, n: u32) -> Result<String, AllocError>
    requires { n ≤ 1000 }
    ensures { IfOk result (λ text. string_bytes text ≡ stimuli_text n) }
{
    let mut text = String::new(alloc);
    push_source(&mut text, n, 1)?;
    push_source(&mut text, n, 2)?;
    push_source(&mut text, n, 3)?;
    push_source(&mut text, n, 4)?;
    Ok(text)
}
