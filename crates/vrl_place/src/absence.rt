ghost use Rattle.std.specs.Prelude.{◌≡◌, ◌∷◌, None, IsTrue};
ghost use Rattle.vrl_kind.specs.Kinds.{Inhabits, tags_at};
ghost use Rattle.vrl_path.specs.Read.{read_at};
ghost use Rattle.vrl_path.specs.declared.path.Step.TheVariants.{Place};
ghost use Rattle.vrl_place.specs.Absence.{may_be_absent};
ghost use Rattle.vrl_place.specs.Inner.{spot_sets};
ghost use Rattle.vrl_value.specs.Tree.{Tree};

use crate::from_end::from_start;
use crate::spot::Spot;
use vrl_kind::Kind;
use vrl_path::{Path, Step};
use vrl_value::Tag;

/// Whether a value of the kind may have nothing at the path: where the kind of what stands there
/// may be absent, or a step may meet what is no fitting container, or counts from the end of an
/// array. It takes no memory.
pub fn may_be_absent(kind: &Kind, path: &Path) -> bool
    ensures tags { result ≡ may_be_absent (tags_at kind.now) path.now }
    ensures inhabited { (value : Tree) → Inhabits value kind.now
        → read_at value path.now ≡ None → IsTrue result }
{
    may_be_absent_at(Spot::of(kind), path.as_slice())
}

// Whether nothing may stand at the end of the steps.
#[cycle(absence)]
fn may_be_absent_at(spot: Spot<'_>, steps: &[Step]) -> bool
    ensures { result ≡ may_be_absent (spot_sets spot.entry) steps.now }
{
    match steps.split_first() {
        None => spot.has(Tag::Absent),
        Some((Step::Field(name), behind)) => {
            if spot.has_other(Tag::Object) {
                return true;
            }
            may_be_absent_at(spot.fields().field(name), behind)
        }
        Some((Step::Place(at), behind)) => place_may_be_absent(spot, *at, behind),
    }
}

#[cycle(absence)]
fn place_may_be_absent(spot: Spot<'_>, at: i64, behind: &[Step]) -> bool
    ensures { result ≡ may_be_absent (spot_sets spot.entry) (Place at ∷ behind.now) }
{
    let Some(at) = from_start(at) else {
        return true;
    };
    if spot.has_other(Tag::List) {
        return true;
    }
    may_be_absent_at(spot.places().place(at), behind)
}
