//! Lists.

ghost use Rattle.std.specs.Prelude.{◌≡◌, ◌<◌, ◌++◌, [], ◌∷◌, IfOk, length};
ghost use Rattle.std.specs.Option.{option_to_list};
ghost use Rattle.qp_core_steps.specs.Lists.{removed};

use qp_base::Memory;
use std::alloc::Global;
use std::marker::Model;

/// Items in order. Contracts see the list.
#[derive(Drop)]
pub struct Items<T> {
    pub items: Vec<T>,
}

impl<T> Model for Items<T> {
    ghost use Rattle.std.specs.Prelude.{List};

    ghost Value = { List T };

    ghost view = { λ b. b.items.items };
}

/// No items.
pub fn no_items<T>(alloc: Global) -> Items<T>
    ensures { result ≡ [] }
{
    Items {
        items: Vec::new(alloc),
    }
}

/// These items, and one more behind them where there is one.
pub fn grown<T: Copy + Drop>(
    alloc: Global,
    xs: &Items<T>,
    more: Option<T>,
) -> Result<Items<T>, Memory>
    ensures { IfOk result (λ ys. ys ≡ xs.now ++ option_to_list more) }
{
    let mut items = Vec::from_slice(alloc, xs.items.as_slice()).map_err(|_| Memory)?;
    if let Some(x) = more {
        items.push(x).map_err(|_| Memory)?;
    }
    Ok(Items { items })
}

/// Takes out the item at a place.
pub fn take_out<T: Drop>(xs: &mut Items<T>, at: Option<usize>)
    ensures { xs.new ≡ removed xs.old at }
{
    if let Some(i) = at {
        if i < xs.items.len() {
            let _ = xs.items.remove(i);
        }
    }
}
