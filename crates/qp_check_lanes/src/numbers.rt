//! Short lists of numbers.

ghost use Rattle.std.specs.Prelude.{◌≡◌};
ghost use Rattle.qp_chart.specs.StateTree.{has};
ghost use Rattle.qp_model.specs.Lists.{without_all};

pub fn has(xs: &[u64], n: u64) -> bool
    ensures { result ≡ has xs.now n }
{
    xs.iter().any(|x| *x == n)
}

/// Takes out every place of the number.
pub fn take_out(xs: &mut Vec<u64>, n: u64)
    ensures { xs.new.items ≡ without_all n xs.old.items }
{
    xs.retain(|x| *x != n);
}
