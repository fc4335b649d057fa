//! Places in files.

use qp_chart::Path;
use std::fmt;

/// Where in a file a fault stands.
///
/// It prints as it stands in a note: `-` for a file without places, the path, or the number.
#[derive(Debug, Drop)]
pub enum Place {
    /// The whole file.
    Nowhere,
    /// A key or a list member of a system's file. The whole table has the empty path, which prints nothing.
    Path(Path),
    /// A line, counted from 1.
    Line(u64),
    /// A byte, counted from 0.
    Offset(u64),
}

impl fmt::Display for Place {
    ghost use Rattle.std.specs.Prelude.{Some};
    ghost use Rattle.qp_run_parts.specs.Notes.{place_text};

    ghost output = { λ place. Some (place_text place) };

    fn fmt<W: fmt::Write>(&self, f: &mut fmt::Formatter<W>) -> fmt::Result {
        match self {
            Place::Nowhere => f.write_str("-"),
            Place::Path(path) => write!(f, "{path}"),
            Place::Line(number) | Place::Offset(number) => write!(f, "{number}"),
        }
    }
}
