//! What the tests have in common: records, lanes and journals as constants state them, systems, and stimuli.

ghost use Rattle.std.specs.Prelude.{◌≡◌, ◌≤◌, [], IfOk, length};
ghost use Rattle.qp_check_words.specs.Numbers.{WordsFit};

use arrayvec::ArrayVec;
use qp_base::Ev;
use qp_chart::Name;
use qp_model::{
    Charts, Journal, Lane, Lanes, ObjectDef, ObjectDefs, PoolDef, PoolDefs, Rec, SignalDef,
    SignalDefs, Source, Stim, Stimuli, System, TimerDefs, Values,
};
use std::alloc::{AllocError, Global};

pub const SIM: u8 = 0;

pub const QK: u8 = 1;

pub const PORT: u8 = 2;

pub const QV: u8 = 3;

/// A record: its kind, the object for which its lane works, and its numbers.
pub type Row = (u8, u8, &'static [u64]);

/// A part of a lane.
pub type Part = &'static [Row];

/// A lane, whose parts follow one another.
pub type Parts = &'static [Part];

/// The record of a row.
fn record(row: &Row) -> Rec {
    let (kind, of, numbers) = row;
    let mut nums = ArrayVec::new();
    let _ = nums.try_extend_from_slice(numbers);
    Rec {
        kind: *kind,
        of: *of,
        nums,
    }
}

fn append(records: &mut Vec<Rec>, rows: &[Row]) -> Result<(), AllocError> {
    for row in rows {
        records.push(record(row))?;
    }
    Ok(())
}

/// The records of rows.
pub fn records(alloc: Global, rows: &[Row]) -> Result<Vec<Rec>, AllocError> {
    let mut records = Vec::new(alloc);
    append(&mut records, rows)?;
    Ok(records)
}

/// A lane whose records stand in parts that follow one another.
pub fn lane(alloc: Global, parts: &[Part]) -> Result<Lane, AllocError> {
    let mut items = Vec::new(alloc);
    for rows in parts {
        append(&mut items, rows)?;
    }
    Ok(Lane { items })
}

/// Lanes, each of its parts.
pub fn lanes(alloc: Global, all: &[Parts]) -> Result<Lanes, AllocError> {
    let mut items = Vec::new(alloc);
    for parts in all {
        items.push(lane(alloc, parts)?)?;
    }
    Ok(Lanes { items })
}

/// Lane 0 alone.
pub fn one_lane(alloc: Global, rows: &[Row]) -> Result<Lanes, AllocError> {
    let items = records(alloc, rows)?;
    Ok(Lanes {
        items: vec![in alloc; Lane { items }]?,
    })
}

/// Lane 0 of its parts, and the lane of a source.
pub fn two_lanes(alloc: Global, lane0: &[Part], source: &[Row]) -> Result<Lanes, AllocError> {
    let mut items = Vec::new(alloc);
    items.push(lane(alloc, lane0)?)?;
    let source = records(alloc, source)?;
    items.push(Lane { items: source })?;
    Ok(Lanes { items })
}

/// A journal with a budget of 1.
pub fn journal(kernel: u8, end: u8, lanes: Lanes) -> Journal {
    Journal {
        kernel,
        budget: 1,
        lanes,
        end,
    }
}

/// No pool, no signal, no chart, no object and no time event.
pub fn nothing(alloc: Global) -> System
    ensures pools { result.pools ≡ [] }
    ensures signals { result.signals ≡ [] }
    ensures charts { result.charts ≡ [] }
    ensures objects { result.objects ≡ [] }
    ensures timers { result.timers ≡ [] }
{
    System {
        pools: PoolDefs {
            items: Vec::new(alloc),
        },
        signals: SignalDefs {
            items: Vec::new(alloc),
        },
        charts: Charts {
            items: Vec::new(alloc),
        },
        objects: ObjectDefs {
            items: Vec::new(alloc),
        },
        timers: TimerDefs {
            items: Vec::new(alloc),
        },
    }
}

pub fn name_of(text: &str) -> Name
    requires { length text.now ≤ 24 }
{
    Name::from(text).unwrap()
}

pub fn signal(name: &str, params: u8, fixed: bool) -> SignalDef
    requires { length name.now ≤ 24 }
{
    SignalDef {
        name: name_of(name),
        params,
        fixed,
    }
}

/// An object of chart 1 with this ring, and room for one deferred entry.
pub fn object(alloc: Global, name: &str, priority: u8, ring: u8) -> ObjectDef
    requires { length name.now ≤ 24 }
    ensures { result.chart ≡ 1 }
{
    ObjectDef {
        name: name_of(name),
        chart: 1,
        priority,
        threshold: priority,
        ring,
        defer: 1,
        vars: Values {
            items: Vec::new(alloc),
        },
    }
}

/// An object of priority 1 with a ring of 1.
pub fn lamp(alloc: Global) -> ObjectDef
    ensures { result.chart ≡ 1 }
{
    object(alloc, "lamp", 1, 1)
}

/// A pool of two blocks, and the lamp.
pub fn with_pool(alloc: Global) -> Result<System, AllocError>
    ensures { IfOk result (λ s. WordsFit s) }
{
    let mut sys = nothing(alloc);
    sys.pools.items.push(PoolDef { size: 1, blocks: 2 })?;
    sys.objects.items.push(lamp(alloc))?;
    Ok(sys)
}

/// The event of signal 4, which has no parameter.
pub fn go() -> Ev {
    Ev {
        sig: 4,
        pars: ArrayVec::new(),
    }
}

/// One source with one stimulus.
pub fn stimuli(alloc: Global, stim: Stim) -> Result<Stimuli, AllocError>
    ensures { IfOk result (λ s. length s ≡ 1) }
{
    let source = Source {
        items: vec![in alloc; stim]?,
    };
    Ok(Stimuli {
        sources: vec![in alloc; source]?,
    })
}
