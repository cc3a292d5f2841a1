ghost use Rattle.std.specs.Prelude.{◌≡◌, IfOk, List};
ghost use Rattle.vrl_value.specs.Look.{Step};
ghost use Rattle.vrl_kind.specs.Change.{null_for_absent, with_list, with_object};
ghost use Rattle.vrl_kind.specs.Cut.{flat, IsCut};
ghost use Rattle.vrl_kind.specs.Kinds.{SameTags, or_absent, tags_at};
ghost use Rattle.vrl_value.specs.declared.value.Tag.{Tag};
ghost use Rattle.vrl_kind.specs.Make.{named_view};
ghost use Rattle.vrl_kind.specs.View.{places_view, rest_of};

use crate::count::{levels, nodes};
use crate::kind::{Kind, ListPart, ObjectPart, Rest, any_list, any_object};
use crate::limits::{LEVEL_LIMIT, NODE_LIMIT};
use crate::make::{all_canonical, copy_list, copy_object, known_fields};
use crate::scalars::Scalars;
use crate::seen::Seen;
use std::alloc::Global;
use vrl_value::{Chars, Memory, Tag};

impl Kind {
    /// The kind of what is of this kind, or may be absent. It takes no memory.
    pub fn or_absent(self) -> Kind
        ensures { (p : List Step) (t : Tag) → tags_at result p t ≡ or_absent p (tags_at self p) t }
    {
        let (scalars, list, object) = self.into_parts();
        Kind {
            scalars: scalars.union(Scalars::only(Tag::Absent)),
            list,
            object,
        }
    }

    /// The kind with null where it may be absent. It takes no memory.
    pub fn null_for_absent(self) -> Kind
        ensures { (p : List Step) (t : Tag) → tags_at result p t ≡ null_for_absent (tags_at self) p t }
    {
        let (scalars, list, object) = self.into_parts();
        Kind {
            scalars: scalars.null_for_absent(),
            list,
            object,
        }
    }

    /// The kind with these arrays in place of its own, those with these kinds at their first places
    /// and this rest behind; all else stays. It copies all but the kind's own arrays. `Memory`:
    /// want of memory.
    pub fn with_list(&self, alloc: Global, places: Vec<Kind>, rest: Rest) -> Result<Kind, Memory>
        ensures { IfOk result (λ kind. SameTags kind (with_list self.now (places_view places.items) (rest_of rest))) }
    {
        all_canonical(&places);
        let own = rest.into_kind(alloc);
        let object = copy_object(alloc, Seen::of(self).object())?;
        Ok(Kind {
            scalars: self.scalars,
            list: Some(ListPart::of(alloc, places, own)?),
            object,
        })
    }

    /// The kind with these objects in place of its own, those with these kinds at these fields, of
    /// equal names the last, and this rest at each other field; all else stays. It copies all but
    /// the kind's own objects. `Memory`: want of memory.
    pub fn with_object(
        &self,
        alloc: Global,
        fields: Vec<(Chars, Kind)>,
        rest: Rest,
    ) -> Result<Kind, Memory>
        ensures { IfOk result (λ kind. SameTags kind (with_object self.now (named_view fields.items) (rest_of rest))) }
    {
        let own = rest.into_kind(alloc);
        let known = known_fields(alloc, fields, &own)?;
        let list = copy_list(alloc, Seen::of(self).list())?;
        Ok(Kind {
            scalars: self.scalars,
            list,
            object: Some(ObjectPart::of(alloc, known, own)?),
        })
    }

    /// Cuts the kind in its place: one of at most `NODE_LIMIT` nodes and `LEVEL_LIMIT` levels stays
    /// as it is, and each other keeps its outer tags alone, with every value inside. It takes no
    /// memory, and walks the kind twice.
    pub fn cut(&mut self, alloc: Global)
        ensures { IsCut self.old self.new }
    {
        if nodes(self) > NODE_LIMIT || levels(self) > LEVEL_LIMIT {
            self.flatten(alloc);
        }
    }

    // The outer tags alone, with every value inside, in their place.
    fn flatten(&mut self, alloc: Global)
        ensures { self.new ≡ flat self.old }
    {
        let outer = Kind {
            scalars: self.scalars,
            list: any_list(alloc, self.list.is_some()),
            object: any_object(alloc, self.object.is_some()),
        };
        *self = outer;
    }
}
