//! The place of a fault in a system file.
ghost use Rattle.std.specs.Prelude.{◌≡◌, ◌+◌, ◌≤◌, ◌++◌, length};

use crate::key;
use arrayvec::ArrayVec;
use std::fmt;

/// A part of a path: a key by its number in the table of keys, or a place in a list, counted from 1.
#[derive(Clone, Copy, PartialEq, Eq, Debug)]
pub enum Part {
    Key(u8),
    Pos(u16),
}

impl Default for Part {
    fn default() -> Part {
        Part::Pos(0)
    }
}

impl fmt::Display for Part {
    ghost use Rattle.std.specs.Prelude.{Some};
    ghost use Rattle.qp_chart_names.specs.Paths.{part_text};

    ghost output = { λ part. Some (part_text part) };

    #[tactic(auto, unfolding(crate::specs::Paths::part_text))]
    fn fmt<W: fmt::Write>(&self, f: &mut fmt::Formatter<W>) -> fmt::Result {
        match self {
            Part::Key(number) => f.write_str(key::word(*number)),
            Part::Pos(place) => write!(f, "{place}"),
        }
    }
}

/// The keys and places that lead to a fault, from the outside.
///
/// It prints as `chart.1.state.2`: each key by its word, each place as a number, joined by dots.
#[derive(Debug, Drop)]
pub struct Path(pub ArrayVec<Part, 8>);

impl Path {
    /// The path of these parts: those of `at` and then those of `rest`.
    pub fn of(at: &[Part], rest: &[Part]) -> Path
        requires { length at.now + length rest.now ≤ 8 }
        ensures { result.0.items ≡ at.now ++ rest.now }
    {
        let mut parts = ArrayVec::new();
        extend(&mut parts, at);
        extend(&mut parts, rest);
        Path(parts)
    }
}

/// Appends parts.
fn extend(all: &mut ArrayVec<Part, 8>, parts: &[Part])
    requires { length all.old.items + length parts.now ≤ 8 }
    ensures { all.new.items ≡ all.old.items ++ parts.now }
{
    for part in parts {
        all.push(*part);
    }
}

impl fmt::Display for Path {
    ghost use Rattle.std.specs.Prelude.{Some};
    ghost use Rattle.qp_chart_names.specs.Paths.{path_text};

    ghost output = { λ path. Some (path_text path.0.items) };

    fn fmt<W: fmt::Write>(&self, f: &mut fmt::Formatter<W>) -> fmt::Result {
        let Some((first, rest)) = self.0.as_slice().split_first() else {
            return Ok(());
        };
        write!(f, "{first}")?;
        for part in rest {
            write!(f, ".{part}")?;
        }
        Ok(())
    }
}
