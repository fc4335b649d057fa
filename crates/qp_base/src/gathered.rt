//! A sink over a sink, which hands on large pieces.

ghost use Rattle.std.specs.Prelude.{◌≡◌, ◌≢◌, ◌+◌, ◌≤◌, ℕ, [], length, vec_capacity, OnOk, OnErr, IfOk, IfErr, IfSome, true, false, is_err};
ghost use Rattle.std.specs.Option.{ForSome};
ghost use Rattle.qp_base.specs.Counts.{CountsIf, Rose};
ghost use Rattle.qp_base.specs.Gathering.{GoesDown, Goes-prop, IsBegun, sink_told};
ghost use Rattle.qp_base.specs.Sink.{AppendsPrefix, appended};
ghost use Rattle.qp_base.specs.declared.course.Course.TheVariants.{Open};

use crate::course::Course;
use crate::sinks::{Sink, SinkFault};
use std::alloc::Global;
use std::marker::{Brand, PhantomData};

/// What a sink was when another began to gather for it, for proofs alone: how many bytes it had got, where it tells, and how many
/// faults it had counted. Whoever gathers picks both at the call.
pub trait Beginning {
    ghost first_length: { ℕ };

    ghost first_faults: { ℕ };
}

impl Beginning for Brand {
    ghost first_length = { 0 };

    ghost first_faults = { 0 };
}

/// How many bytes are gathered before they go on.
const ROOM: usize = 65536;

/// A sink that gathers up to 64 KiB of what is put, and hands on whole pieces to another, in their order. A put takes no memory.
///
/// What the other got and what is still gathered are together what was put. A put for which there is room left never fails
/// and reaches no other sink; else a put or a flush fails only where the other did. After a piece that failed every put and
/// every flush fails. The count of the other sink stands where none has failed, and else it rose since the beginning.
#[derive(Drop)]
pub struct Gathered<S: Sink + Drop, B: Beginning> {
    inner: S,
    held: Vec<u8>,
    gone: u64,
    course: Course,
    faults: u64,
    beginning: PhantomData<B>,
    ghost few: { length held.items ≤ 65536 },
    ghost room: { 65536 ≤ vec_capacity held },
    ghost goes: { GoesDown course (B.first_length + gone) held.items (S.written inner) } by { Goes-prop course (B.first_length + gone) held.items (S.written inner) },
    ghost grown: { ForSome (S.written inner) (λ w. B.first_length ≤ length w) },
    ghost none: { course ≡ Open → faults ≡ 0 },
    ghost stands: { course ≡ Open → S.faults inner ≡ B.first_faults },
    ghost rose: { course ≢ Open → Rose B.first_faults (S.faults inner) },
}

impl<S: Sink + Drop, B: Beginning> Gathered<S, B> {
    /// A sink over this one. It takes its memory at once; where that is refused, the other is handed back.
    pub fn new(alloc: Global, inner: S) -> Result<Gathered<S, B>, S>
        requires first_length { IfSome (S.written inner) (λ w. length w ≡ B.first_length) }
        requires first_faults { S.faults inner ≡ B.first_faults }
        ensures inner { IfOk result (λ sink. sink.inner ≡ inner) }
        ensures going { IfOk result (λ sink. sink.course ≡ Open) }
        ensures held { IfOk result (λ sink. sink.held.items ≡ []) }
        ensures faults { IfOk result (λ sink. sink.faults ≡ 0) }
        ensures back { IfErr result (λ sink. sink ≡ inner) }
    {
        match Vec::with_capacity(alloc, ROOM) {
            Ok(held) => Ok(Gathered {
                inner,
                held,
                gone: 0,
                course: Course::Open,
                faults: 0,
                beginning: PhantomData,
            }),
            Err(_) => Err(inner),
        }
    }

    /// The sink below, which got the first part of what was put.
    pub fn inner(&self) -> &S
        ensures inner { result.now ≡ self.now.inner }
        ensures begun { IsBegun (S.written result.now) (sink_told self.now.course (B.first_length + self.now.gone) self.now.held.items
            (S.written self.now.inner)) }
    {
        &self.inner
    }

    /// The sink below, which got the first part of what was put; what is still gathered is dropped.
    pub fn into_inner(self) -> S
        ensures inner { result ≡ self.inner }
        ensures begun { IsBegun (S.written result) (sink_told self.course (B.first_length + self.gone) self.held.items (S.written self.inner)) }
        ensures grown { ForSome (S.written result) (λ w. B.first_length ≤ length w) }
        ensures none { self.course ≡ Open → self.faults ≡ 0 }
        ensures stands { self.course ≡ Open → S.faults result ≡ B.first_faults }
        ensures rose { self.course ≢ Open → Rose B.first_faults (S.faults result) }
    {
        let Gathered { inner, .. } = self;
        inner
    }

    /// Hands on all that is gathered. It succeeds exactly where all that was put has gone on, and nothing is gathered then.
    pub fn flush(&mut self) -> Result<(), SinkFault>
        ensures told { sink_told self.new.course (B.first_length + self.new.gone) self.new.held.items (S.written self.new.inner) ≡ sink_told
            self.old.course (B.first_length + self.old.gone) self.old.held.items (S.written self.old.inner) }
        ensures going { OnOk result (self.new.course ≡ Open) }
        ensures held { OnOk result (self.new.held.items ≡ []) }
        ensures ok { OnOk result (S.written self.new.inner ≡ sink_told self.old.course (B.first_length + self.old.gone) self.old.held.items
            (S.written self.old.inner)) }
        ensures closed { self.old.course ≢ Open → is_err result ≡ true }
        ensures err { OnErr result (self.new.course ≢ Open) }
        ensures cause { OnErr result (self.old.course ≡ Open → Rose (S.faults self.old.inner) (S.faults self.new.inner)) }
        ensures faults { CountsIf (is_err result) self.old.faults self.new.faults }
    {
        match self.course {
            Course::Open => self.hand_on(),
            _ => self.fail(),
        }
    }

    /// A put or a flush that fails: it is counted.
    fn fail(&mut self) -> Result<(), SinkFault>
        requires { self.old.course ≢ Open }
        ensures err { is_err result ≡ true }
        ensures inner { self.new.inner ≡ self.old.inner }
        ensures held { self.new.held ≡ self.old.held }
        ensures gone { self.new.gone ≡ self.old.gone }
        ensures course { self.new.course ≡ self.old.course }
        ensures faults { CountsIf true self.old.faults self.new.faults }
        ensures faults_last { self.old.faults ≤ self.new.faults }
    {
        self.faults = self.faults.saturating_add(1);
        Err(SinkFault::Failed)
    }

    /// Gathers bytes for which there is room.
    fn gather(&mut self, bytes: &[u8])
        requires going { self.old.course ≡ Open }
        requires room { length self.old.held.items + length bytes.now ≤ 65536 }
        ensures told { sink_told self.new.course (B.first_length + self.new.gone) self.new.held.items (S.written self.new.inner) ≡ appended
            (sink_told self.old.course (B.first_length + self.old.gone) self.old.held.items (S.written self.old.inner)) bytes.now }
        ensures going { self.new.course ≡ Open }
        ensures inner { self.new.inner ≡ self.old.inner }
        ensures faults { self.new.faults ≡ self.old.faults }
    {
        self.held.extend_from_slice(bytes).unwrap();
    }

    /// Hands on what is gathered.
    fn hand_on(&mut self) -> Result<(), SinkFault>
        requires { self.old.course ≡ Open }
        ensures told { sink_told self.new.course (B.first_length + self.new.gone) self.new.held.items (S.written self.new.inner) ≡ sink_told
            self.old.course (B.first_length + self.old.gone) self.old.held.items (S.written self.old.inner) }
        ensures going { OnOk result (self.new.course ≡ Open) }
        ensures held { OnOk result (self.new.held.items ≡ []) }
        ensures well { OnOk result (S.faults self.new.inner ≡ S.faults self.old.inner) }
        ensures err { OnErr result (self.new.course ≢ Open) }
        ensures cause { OnErr result (Rose (S.faults self.old.inner) (S.faults self.new.inner)) }
        ensures faults { CountsIf (is_err result) self.old.faults self.new.faults }
        ensures faults_last { self.old.faults ≤ self.new.faults }
    {
        if self.held.is_empty() {
            return Ok(());
        }
        match self.inner.put(self.held.as_slice()) {
            Ok(()) => {
                self.gone = self.gone.wrapping_add(self.held.len() as u64);
                self.held.clear();
                Ok(())
            }
            Err(_) => {
                self.course = Course::Torn;
                self.fail()
            }
        }
    }

    /// Hands on bytes for which there is no room.
    fn hand_over(&mut self, bytes: &[u8]) -> Result<(), SinkFault>
        requires going { self.old.course ≡ Open }
        requires held { self.old.held.items ≡ [] }
        ensures ok { OnOk result (sink_told self.new.course (B.first_length + self.new.gone) self.new.held.items (S.written self.new.inner) ≡
            appended (sink_told self.old.course (B.first_length + self.old.gone) self.old.held.items (S.written self.old.inner)) bytes.now) }
        ensures prefix { OnErr result (AppendsPrefix (sink_told self.old.course (B.first_length + self.old.gone) self.old.held.items
            (S.written self.old.inner)) bytes.now (sink_told self.new.course (B.first_length + self.new.gone) self.new.held.items
            (S.written self.new.inner))) }
        ensures going { OnOk result (self.new.course ≡ Open) }
        ensures err { OnErr result (self.new.course ≢ Open) }
        ensures cause { OnErr result (Rose (S.faults self.old.inner) (S.faults self.new.inner)) }
        ensures faults { CountsIf (is_err result) self.old.faults self.new.faults }
        ensures faults_last { self.old.faults ≤ self.new.faults }
    {
        match self.inner.put(bytes) {
            Ok(()) => {
                self.gone = self.gone.wrapping_add(bytes.len() as u64);
                Ok(())
            }
            Err(_) => {
                self.course = Course::Stopped;
                self.fail()
            }
        }
    }
}

impl<S: Sink + Drop, B: Beginning> Sink for Gathered<S, B> {
    ghost written = { λ s. sink_told s.course (B.first_length + s.gone) s.held.items (S.written s.inner) };

    ghost faults = { λ s. s.faults };

    fn put(&mut self, bytes: &[u8]) -> Result<(), SinkFault>
        ensures ok { OnOk result (sink_told self.new.course (B.first_length + self.new.gone) self.new.held.items (S.written self.new.inner) ≡
            appended (sink_told self.old.course (B.first_length + self.old.gone) self.old.held.items (S.written self.old.inner)) bytes.now) }
        ensures err { OnErr result (AppendsPrefix (sink_told self.old.course (B.first_length + self.old.gone) self.old.held.items
            (S.written self.old.inner)) bytes.now (sink_told self.new.course (B.first_length + self.new.gone) self.new.held.items
            (S.written self.new.inner))) }

        ensures going { OnOk result (self.new.course ≡ Open) }
        ensures closed { self.old.course ≢ Open → is_err result ≡ true }
        ensures closes { OnErr result (self.new.course ≢ Open) }
        ensures fits { self.old.course ≡ Open → length self.old.held.items + length bytes.now ≤ 65536 → (is_err result ≡ false) ×
            (self.new.inner ≡ self.old.inner) }
        ensures cause { OnErr result (self.old.course ≡ Open → Rose (S.faults self.old.inner) (S.faults self.new.inner)) }

        ensures faults { CountsIf (is_err result) self.old.faults self.new.faults }
        ensures faults_last { self.old.faults ≤ self.new.faults }
    {
        if self.course != Course::Open {
            return self.fail();
        }
        if bytes.len() > ROOM - self.held.len() {
            self.hand_on()?;
            if bytes.len() > ROOM {
                return self.hand_over(bytes);
            }
        }
        self.gather(bytes);
        Ok(())
    }
}
