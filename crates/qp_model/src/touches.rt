//! What a record does to a numbered word, whatever numbers it states.

ghost use Rattle.std.specs.Prelude.{◌≡◌, ◌+◌, suc};
ghost use Rattle.qp_model.specs.Record.{item_of};
ghost use Rattle.qp_model.specs.History.{touch, touch_of};
ghost use Rattle.qp_model.specs.Touches.{as_touch};
ghost use Rattle.qp_model.specs.declared.touches.Touched.TheVariants as touch_kind;

use crate::bodies::Body;
use crate::record::Rec;

/// A word by the numbers that a record states, which may name none of the system.
#[derive(Clone, Copy)]
pub enum Named {
    Pool { p: u64 },
    Block { p: u64, b: u64 },
    Queue { a: u64 },
    Signal { sig: u64 },
    Timer { t: u64 },
}

/// What a record does to a word. The mark is the number of operations after it, or the number shown.
#[derive(Clone, Copy)]
pub enum Touched {
    Draws { word: Named, mark: u128 },
    Shows { word: Named, mark: u128 },
    Neither,
}

impl Touched {
    /// What the record does to its word.
    #[tactic(auto, unfolding(crate::specs::Record::item_of))]
    pub fn by(r: &Rec) -> Self
        ensures { as_touch result ≡ touch (item_of r.now) }
    {
        of_body(u64::from(r.of), &r.body())
    }
}

fn of_body(o: u64, body: &Body) -> Touched
    ensures { as_touch result ≡ touch_of o body.now }
{
    match *body {
        Body::Took { f, l, m, .. } | Body::Lifo { f, l, m, .. } => draws(
            Named::Queue { a: o },
            operations(f, l, m),
        ),
        Body::Nil { f, l, m } => shows(Named::Queue { a: o }, operations(f, l, m)),
        Body::Post { a, f, l, m, .. } => draws(Named::Queue { a }, operations(f, l, m)),
        Body::Seen { p: a, f, l, m }
        | Body::Full { a, f, l, m, .. }
        | Body::NoEntry { a, f, l, m }
        | Body::NoLifo { a, f, l, m } => shows(Named::Queue { a }, operations(f, l, m)),
        Body::New { p, n, .. } | Body::Back { p, n, .. } => draws(Named::Pool { p }, after(n)),
        Body::Short { p, n, .. } | Body::NoBlock { p, n, .. } => shows(
            Named::Pool { p },
            u128::from(n),
        ),
        Body::Inc { p, b, r: n } | Body::Dec { p, b, d: n, .. } => draws(
            Named::Block { p, b },
            after(n),
        ),
        Body::Sub { sig, n } | Body::Unsub { sig, n } => draws(Named::Signal { sig }, after(n)),
        Body::Pub { sig, n, .. } | Body::Same { sig, n } => shows(
            Named::Signal { sig },
            u128::from(n),
        ),
        Body::Arm { t, n, .. }
        | Body::Disarm { t, n, .. }
        | Body::Rearm { t, n, .. }
        | Body::Tick { t, n, .. }
        | Body::Fire { t, n, .. } => draws(Named::Timer { t }, after(n)),
        Body::Idle { t, n } | Body::Armed { t, n, .. } => shows(Named::Timer { t }, u128::from(n)),
        Body::Begin
        | Body::Run { .. }
        | Body::Unhandled
        | Body::Exit { .. }
        | Body::Enter { .. }
        | Body::Init { .. }
        | Body::Say { .. }
        | Body::Done
        | Body::Lock { .. }
        | Body::Unlock { .. }
        | Body::Defer { .. }
        | Body::NoDefer
        | Body::Recall { .. }
        | Body::NoRecall
        | Body::Flush { .. }
        | Body::Stim { .. }
        | Body::Settle
        | Body::BadTicks { .. }
        | Body::Spent
        | Body::Spill { .. }
        | Body::Look { .. }
        | Body::Rest { .. }
        | Body::Malformed => Touched::Neither,
    }
}

fn draws(word: Named, mark: u128) -> Touched
    ensures { result ≡ touch_kind.Draws word mark }
{
    Touched::Draws { word, mark }
}

fn shows(word: Named, mark: u128) -> Touched
    ensures { result ≡ touch_kind.Shows word mark }
{
    Touched::Shows { word, mark }
}

/// The number of operations of a queue at these counts.
fn operations(f: u64, l: u64, m: u64) -> u128
    ensures { result ≡ f + l + m }
{
    u128::from(f) + u128::from(l) + u128::from(m)
}

/// The number of operations after the one of this number.
fn after(n: u64) -> u128
    ensures { result ≡ suc n }
{
    u128::from(n) + 1
}
