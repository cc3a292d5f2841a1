ghost use Rattle.std.specs.Cmp.{eq_by_cmp_equiv, on_total, partial_equiv_from_equiv, partial_order_from_total};
ghost use Rattle.std.specs.Ordering.{as_partial_cmp, eq_by_cmp, on};
ghost use Rattle.std.specs.Prelude.{refl};
ghost use Rattle.fn_list.specs.Order.{order};
ghost use Rattle.fn_list.specs.Ordered.{order_total};

use crate::order::order;
use std::cmp::Ordering;
use vrl_value::Value;

// A borrowed value, which a set finds by the order of values. A contract sees `tree_in` it.
#[derive(Clone, Copy)]
pub(crate) struct Key<'a> {
    pub(crate) value: &'a Value,
}

impl<'a> PartialEq for Key<'a> {
    ghost use Rattle.fn_list.specs.Seen.{tree_in};

    ghost eq = { eq_by_cmp (on tree_in order) };

    ghost laws = { partial_equiv_from_equiv (eq_by_cmp_equiv (on_total tree_in order_total)) };

    fn eq(&self, other: &Key<'a>) -> bool {
        order(self.value, other.value).is_eq()
    }
}

impl<'a> Eq for Key<'a> {
    ghost use Rattle.fn_list.specs.Seen.{tree_in};

    ghost laws = { eq_by_cmp_equiv (on_total tree_in order_total) };
}

impl<'a> PartialOrd for Key<'a> {
    ghost use Rattle.fn_list.specs.Seen.{tree_in};

    ghost partial_cmp = { as_partial_cmp (on tree_in order) };

    ghost laws = { partial_order_from_total (on_total tree_in order_total) };

    fn partial_cmp(&self, other: &Key<'a>) -> Option<Ordering> {
        Some(self.cmp(other))
    }
}

impl<'a> Ord for Key<'a> {
    ghost use Rattle.fn_list.specs.Seen.{tree_in};

    ghost cmp = { on tree_in order };

    ghost total = { on_total tree_in order_total };

    ghost matches_partial_cmp = { λ x y. refl };

    ghost matches_eq = { λ x y. refl };

    fn cmp(&self, other: &Key<'a>) -> Ordering {
        order(self.value, other.value)
    }
}
