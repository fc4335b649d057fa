//! Why a chart is refused.
ghost use Rattle.std.specs.Prelude.{◌+◌, ◌≤◌, ◌++◌, length};
ghost use Rattle.qp_chart_names.specs.Faults.{fault, IsChartFault};

use crate::place::{Part, Path};
use std::alloc::{AllocError, AllocFailed};

/// Why there is no checked chart.
#[derive(Debug, Drop)]
pub enum ChartFault {
    /// Memory ran out.
    Memory,
    /// The chart has a fault; the path begins below the chart.
    At { code: u8, path: Path },
}

impl ChartFault {
    /// The fault of this code at the place that `rest` leads to from the place `at`.
    pub fn below(code: u8, at: &[Part], rest: &[Part]) -> ChartFault
        requires { length at.now + length rest.now ≤ 8 }
        ensures { IsChartFault (fault code (at.now ++ rest.now)) result }
    {
        ChartFault::At {
            code,
            path: Path::of(at, rest),
        }
    }
}

impl From<AllocError> for ChartFault {
    ghost use Rattle.std.specs.Prelude.{◌≡◌};
    ghost use Rattle.qp_chart_names.specs.declared.fault.ChartFault.TheVariants.{Memory};

    ghost from_gives = { λ _ fault. fault ≡ Memory };

    fn from(_: AllocError) -> ChartFault {
        ChartFault::Memory
    }
}

impl<T: Drop> From<AllocFailed<T>> for ChartFault {
    ghost use Rattle.std.specs.Prelude.{◌≡◌};
    ghost use Rattle.qp_chart_names.specs.declared.fault.ChartFault.TheVariants.{Memory};

    ghost from_gives = { λ _ fault. fault ≡ Memory };

    fn from(_: AllocFailed<T>) -> ChartFault {
        ChartFault::Memory
    }
}
