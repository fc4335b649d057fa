//! Names.
ghost use Rattle.std.specs.Prelude.{◌≡◌, ◌+◌, ◌-◌, ◌<◌, ◌≤◌, List, ℕ, length, take, drop, replicate, nat_eq, Some, refl, IfOk, IsOk, ◌↔◌};
ghost use Rattle.std.specs.Ordering.{nat_cmp};
ghost use Rattle.std.specs.Cmp.Lexicographic.{pointwise, slice_cmp, nat_list_eq_equiv, nat_list_cmp_total, texts_po, texts_ties};
ghost use Rattle.std.specs.Cmp.{partial_equiv_from_equiv};

use std::cmp::Ordering;
use std::marker::Model;

/// A name of a system file: a letter or `_`, then letters, digits and `_`, 1 to 24 bytes in all. Contracts see its bytes;
/// its unused room is zero.
#[derive(Clone, Copy, Drop)]
pub struct Name {
    bytes: [u8; 24],
    len: u8,
}

impl Model for Name {
    ghost use Rattle.std.specs.Prelude.{◌≡◌, ◌-◌, ◌≤◌, ◌++◌, List, ℕ, length, take, drop, replicate, IsUtf8};
    ghost use Rattle.std.proofs.Common.{arith, take-append-drop, length-take-le, ap, sym, ◌∙◌, subst};

    ghost Value = { List ℕ };

    ghost view = { λ n. take n.len n.bytes };

    ghost invariant = { λ n. (n.len ≤ 24) × (length n.bytes ≡ 24) × (drop n.len n.bytes ≡ replicate (24 - n.len) 0) × ∥ IsUtf8 (take n.len n.bytes) ∥₁ };

    ghost inverse = { λ w. record { bytes = w ++ replicate (24 - length w) 0; len = length w } };

    ghost use Rattle.qp_chart_text.specs.Room.{roomed};

    ghost inverse_ok = { λ n h i. record {
      bytes = roomed n.len n.bytes h.0 h.1 h.2 i;
      len = length-take-le n.len n.bytes (omega (arith, h.0, h.1)) i;
    } };
}

impl Name {
    /// The name with this text, if it isn't too long.
    pub fn from(text: &str) -> Result<Name, ()>
        ensures variant { IsOk result ↔ (length text.now ≤ 24) }
        ensures ok { IfOk result (λ n. n ≡ text.now) }
    {
        let n = text.len();
        if n > 24 {
            return Err(());
        }
        let mut bytes = [0; 24];
        bytes[..n].copy_from_slice(text.as_bytes());
        Ok(Name {
            bytes,
            len: n as u8,
        })
    }

    /// Its text.
    pub fn as_str(&self) -> &str
        ensures { result.now ≡ self.now }
    {
        unsafe { str::from_utf8_unchecked(&self.bytes[..usize::from(self.len)]) }
    }
}

impl PartialEq for Name {
    ghost eq = { pointwise nat_eq };

    ghost laws = { partial_equiv_from_equiv nat_list_eq_equiv };

    fn eq(&self, other: &Self) -> bool {
        self.as_str() == other.as_str()
    }
}

impl Eq for Name {
    ghost laws = { nat_list_eq_equiv };
}

impl PartialOrd for Name {
    ghost partial_cmp = { λ s t. Some (slice_cmp nat_cmp s t) };

    ghost laws = { texts_po };

    fn partial_cmp(&self, other: &Self) -> Option<Ordering> {
        Some(self.cmp(other))
    }
}

impl Ord for Name {
    ghost cmp = { slice_cmp nat_cmp };

    ghost total = { nat_list_cmp_total };

    ghost matches_partial_cmp = { λ s t. refl };

    ghost matches_eq = { texts_ties };

    fn cmp(&self, other: &Self) -> Ordering {
        self.as_str().cmp(other.as_str())
    }
}
