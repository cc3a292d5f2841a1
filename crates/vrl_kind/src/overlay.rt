ghost use Rattle.std.specs.Prelude.{◌≡◌, true, ℕ, IfOk, List, Some};
ghost use Rattle.vrl_kind.specs.Canonical.{rest_kind, IsCanonical, ObjectIsCanonical};
ghost use Rattle.vrl_kind.specs.Kinds.{object_at, root_tags, tags_at};
ghost use Rattle.vrl_kind.specs.Overlay.{over_at, overlaid_at};
ghost use Rattle.vrl_kind.specs.Parts.{AreCombined, IsCombined};
ghost use Rattle.vrl_kind.specs.Seen.{part_rest, seen_object, seen_tree};
ghost use Rattle.vrl_kind.specs.View.{fields_view, object_of};
ghost use Rattle.vrl_value.specs.Look.{Step};
ghost use Rattle.vrl_value.specs.declared.value.Tag.{Tag};
ghost use Rattle.vrl_value.specs.declared.value.Tag.TheVariants as tag;

use crate::joining::{join_seen, with_either};
use crate::kind::{Kind, KindField, ObjectPart};
use crate::make::{copy_part, push_known};
use crate::merge::Merge;
use crate::scalars::Scalars;
use crate::seen::{Seen, SeenObject};
use std::alloc::Global;
use vrl_value::{Chars, Memory};

/// The kind of an object of the left kind with the fields of one of the right kind put over its
/// own: a field has the right one's kind, and where that may be absent, the left one's beside it.
/// It walks each kind once. `Memory`: want of memory.
pub fn overlaid(alloc: Global, left: &Kind, right: &Kind) -> Result<Kind, Memory>
    requires left { root_tags left.now tag.Object ≡ true }
    requires right { root_tags right.now tag.Object ≡ true }
    ensures { IfOk result (λ kind. (p : List Step) (t : Tag) → tags_at kind p t ≡ overlaid_at left.now right.now p t) }
{
    let (Some(lower), Some(upper)) = (Seen::of(left).object(), Seen::of(right).object()) else {
        return Ok(Kind::never());
    };
    Ok(Kind {
        scalars: Scalars::NONE,
        list: None,
        object: Some(overlaid_fields(alloc, lower, upper)?),
    })
}

fn overlaid_fields(
    alloc: Global,
    lower: SeenObject<'_>,
    upper: SeenObject<'_>,
) -> Result<ObjectPart, Memory>
    requires lower_canonical { ObjectIsCanonical (seen_object (Some lower)) }
    requires upper_canonical { ObjectIsCanonical (seen_object (Some upper)) }
    ensures over { IfOk result (λ part. (n : List ℕ) (p : List Step) (t : Tag) → object_at (object_of (Some part)) n p t
        ≡ over_at (object_at (seen_object (Some lower.entry)) n) (object_at (seen_object (Some upper.entry)) n) p t) }
    ensures canonical { IfOk result (λ part. ObjectIsCanonical (object_of (Some part))) }
{
    let own = put_over(alloc, Seen::of_rest(lower.rest), Seen::of_rest(upper.rest))?;
    let known = overlaid_known(alloc, lower, upper, &own)?;
    ObjectPart::of(alloc, known, own)
}

// The kinds at the names that either knows, where they say more than the rest.
fn overlaid_known(
    alloc: Global,
    lower: SeenObject<'_>,
    upper: SeenObject<'_>,
    own: &Kind,
) -> Result<Vec<KindField>, Memory>
    requires lower_canonical { ObjectIsCanonical (seen_object (Some lower)) }
    requires upper_canonical { ObjectIsCanonical (seen_object (Some upper)) }
    requires own { IsCombined over_at (rest_kind (part_rest lower.rest)) (rest_kind (part_rest upper.rest)) own.now }
    ensures { IfOk result
        (λ known. AreCombined over_at
        (rest_kind (part_rest lower.entry.rest)) (rest_kind (part_rest upper.entry.rest)) own.now
        (fields_view lower.entry.fields.now) (fields_view upper.entry.fields.now) (fields_view known.items)) }
{
    let mut known: Vec<KindField> = Vec::new(alloc);
    let mut merge = Merge {
        left: lower.fields,
        right: upper.fields,
    };
    while let Some(pair) = merge.next() {
        let kind = put_over(
            alloc,
            lower.known_or_rest(pair.left),
            upper.known_or_rest(pair.right),
        )?;
        let name = Chars::copy_of(alloc, pair.name)?;
        push_known(&mut known, name, kind, own)?;
    }
    Ok(known)
}

// What stands where the upper may be, or where it is absent, the lower.
fn put_over(alloc: Global, lower: Seen<'_>, upper: Seen<'_>) -> Result<Kind, Memory>
    ensures over { IfOk result (λ kind. IsCombined over_at (seen_tree lower.entry) (seen_tree upper.entry) kind) }
    ensures canonical { IfOk result (λ kind. IsCanonical kind) }
{
    if !upper.absent {
        let present = copy_part(alloc, upper.part)?;
        return Ok(with_either(present, false, false));
    }
    let present = Seen {
        part: upper.part,
        absent: false,
    };
    join_seen(alloc, present, lower)
}
