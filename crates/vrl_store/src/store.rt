ghost use Rattle.std.specs.Prelude.{◌≡◌, ◌+◌, ◌-◌, ◌<◌, ◌≤◌, ◌↔◌, ◌&&◌, [], ◌∷◌, false, true, length, option_map, slice_get, slice_set as set, take, unwrap_or, IfOk, IfSome, IsTrue, OnErr, OnOk};
ghost use Rattle.std.specs.Coded.{Coded-set};
ghost use Rattle.vrl_value.specs.Depth.{depth_of};
ghost use Rattle.vrl_value.specs.Tree.{null};
ghost use Rattle.vrl_value.specs.View.{members_of, tree_of};
ghost use Rattle.vrl_value.specs.declared.value.Value.TheVariants as value;
ghost use Rattle.vrl_path.specs.Steps.{IsWritable};
ghost use Rattle.vrl_path.specs.Trees.{remove_tree, set_tree};
ghost use Rattle.vrl_path.specs.Write.{depth_limit};
ghost use Rattle.vrl_syntax.specs.Stores.{metadata, store_of, value_of, with_value};
ghost use Rattle.vrl_syntax.specs.declared.root.Root.TheVariants.{Name};
ghost use Rattle.vrl_store.specs.Kept.{kept-prop, is_held, is_numbered, trees_of, AreKept, IsShallow};
ghost use Rattle.vrl_store.specs.Places as spec;

use crate::hidden_value::HiddenValue;
use crate::metadata::{METADATA, empty_object, left_of, metadata_of};
use crate::naming::named;
use crate::target_path::{Base, TargetPath};
use std::alloc::Global;
use std::collections::BTreeMap;
use vrl_path::{DEPTH_LIMIT, Path, SetFault, exists, get, put, remove, set, set_trees_are_sets};
use vrl_value::{Fields, Memory, Names, Value};

/// The event and the variables of a run. The metadata is the first of the variables, and always
/// there. Another variable that isn't there has no value.
#[derive(Drop)]
pub struct Store {
    event: Value,
    // The event is known to be within the limit of depth.
    is_shallow: bool,
    variables: Vec<Option<Value>>,
    // Each variable is known to be within it.
    are_shallow: bool,
    // The numbers of the variables that are there beside the metadata, in the order in which they
    // came.
    present: Vec<usize>,
    // Null, which is lent where nothing stands.
    null: Value,
    // The metadata and the variables with these numbers are there, and no others; each number
    // stands once. Where the flag says so, the variables are within the limit of depth.
    ghost kept: { AreKept are_shallow (trees_of variables.items) (0 ∷ present.items) } by { kept-prop are_shallow
        (trees_of variables.items) (0 ∷ present.items) },
    // Where the flag says so, the event is within the limit.
    ghost within: { IsTrue is_shallow → IsShallow (tree_of event) },
    ghost nothing: { null ≡ value.Null } by { Coded-set null-code null value.Null },
}

impl Store {
    ghost use Rattle.vrl_store.specs.StoreView.{count_of, event_of, hidden_tree, left_with, map_of, name_at, present_of, root_of, store_in, AreDistinct, AreNames, BeginWithMetadata, IsFront, IsKnown, IsWritten, Names, Stay};
    ghost use Rattle.vrl_store.specs.Told.{AreToldByMap};

    /// The store that a run of so many variables starts with, the metadata among them: no other is
    /// there yet. The event and the metadata are known to be within the limit of depth where the
    /// flag says so; else the depth of each is measured where it is written to. `Memory`: out of
    /// memory.
    pub fn start(
        alloc: Global,
        event: Value,
        metadata: Value,
        are_shallow: bool,
        count: usize,
    ) -> Result<Store, Memory>
        requires { IsTrue are_shallow → IsShallow (tree_of event) × IsShallow (tree_of metadata) }
        ensures { IfOk result (λ store. (names : Names) → length names ≡ count → AreDistinct names
            → BeginWithMetadata names
            → (store_in names store ≡ store_of (tree_of event) (tree_of metadata)) × AreNames names store) }
    {
        let mut variables = Vec::with_capacity(alloc, count)?;
        variables.push(Some(metadata))?;
        for _ in 1..count {
            variables.push(None)?;
        }
        Ok(Store {
            event,
            is_shallow: are_shallow,
            variables,
            are_shallow,
            present: Vec::new(alloc),
            null: Value::Null,
        })
    }

    /// What stands in a root; null in a variable that isn't there.
    fn root(&self, base: Base) -> &Value
        requires base { IsKnown (count_of self.now) base }
        ensures { (names : Names) → AreNames names self.now
            → tree_of result.now ≡ spec.root_value (root_of names base) (store_in names self.now) }
    {
        match base {
            Base::Event => &self.event,
            Base::Variable(number) => match &self.variables[number] {
                Some(value) => value,
                None => &self.null,
            },
        }
    }

    /// What stands at a place; null where nothing does.
    pub fn read(&self, target: &TargetPath) -> &Value
        requires base { IsKnown (count_of self.now) target.now.base }
        ensures { (names : Names) → AreNames names self.now
            → tree_of result.now ≡ spec.read_in (root_of names target.now.base) target.now.path
            (store_in names self.now) }
    {
        match get(self.root(target.base), &target.path) {
            Some(value) => value,
            None => &self.null,
        }
    }

    /// Whether something stands at a place, be it null; a root always does.
    pub fn is_there(&self, target: &TargetPath) -> bool
        requires base { IsKnown (count_of self.now) target.now.base }
        ensures { (names : Names) → AreNames names self.now
            → result ≡ spec.is_there (root_of names target.now.base) target.now.path (store_in names self.now) }
    {
        exists(self.root(target.base), &target.path)
    }

    /// Writes a value at a place. `TooDeep`: the root would be nested too deeply; `Memory`: want of
    /// memory. At both the store stays as it was, and the value is gone.
    pub fn write(
        &mut self,
        alloc: Global,
        target: &TargetPath,
        value: Value,
    ) -> Result<(), SetFault>
        requires base { IsKnown (count_of self.old) target.now.base }
        requires writable { IsWritable target.now.path }
        ensures written { (names : Names) → AreNames names self.old
            → IsWritten (root_of names target.now.base) target.now.path (tree_of value) (store_in names self.old)
            (store_in names self.new) result }
        ensures want { result ≡ Err SetFault.Memory → (names : Names) → AreNames names self.old
            → IsTrue (spec.is_within
            (spec.root_with (root_of names target.now.base) target.now.path (tree_of value)
            (store_in names self.old))) }
        ensures front { IsFront (present_of self.old) (present_of self.new) }
        ensures as_many { count_of self.new ≡ count_of self.old }
    {
        match target.base {
            Base::Event => {
                set_in(alloc, &mut self.event, self.is_shallow, &target.path, value)?;
                self.is_shallow = true;
                Ok(())
            }
            Base::Variable(number) => self.write_variable(alloc, number, &target.path, value),
        }
    }

    // Writes a value at a path of a variable, which starts at null where it isn't there.
    fn write_variable(
        &mut self,
        alloc: Global,
        number: usize,
        path: &Path,
        value: Value,
    ) -> Result<(), SetFault>
        requires known { number < length self.old.variables.items }
        requires writable { IsWritable path.now }
        ensures written { (names : Names) → AreNames names self.old
            → IsWritten (root_of names (Base.Variable number)) path.now (tree_of value) (store_in names self.old)
            (store_in names self.new) result }
        ensures want { result ≡ Err SetFault.Memory → (names : Names) → AreNames names self.old
            → IsTrue (spec.is_within
            (spec.root_with (root_of names (Base.Variable number)) path.now (tree_of value)
            (store_in names self.old))) }
        ensures front { IsFront self.old.present.items self.new.present.items }
        ensures as_many { length self.new.variables.items ≡ length self.old.variables.items }
    {
        let are_shallow = self.are_shallow;
        match &mut self.variables[number] {
            Some(variable) => set_in(alloc, variable, are_shallow, path, value),
            None => self.write_new(alloc, number, path, value),
        }
    }

    // Writes a value at a path of a variable that isn't there: at one of null.
    fn write_new(
        &mut self,
        alloc: Global,
        number: usize,
        path: &Path,
        value: Value,
    ) -> Result<(), SetFault>
        requires known { number < length self.old.variables.items }
        requires absent { is_numbered (trees_of self.old.variables.items) number ≡ false }
        requires writable { IsWritable path.now }
        ensures written { (names : Names) → AreNames names self.old
            → IsWritten (root_of names (Base.Variable number)) path.now (tree_of value) (store_in names self.old)
            (store_in names self.new) result }
        ensures want { result ≡ Err SetFault.Memory → (names : Names) → AreNames names self.old
            → IsTrue (spec.is_within
            (spec.root_with (root_of names (Base.Variable number)) path.now (tree_of value)
            (store_in names self.old))) }
        ensures front { IsFront self.old.present.items self.new.present.items }
        ensures as_many { length self.new.variables.items ≡ length self.old.variables.items }
    {
        let variable = set_null(alloc, path, value)?;
        self.begin(number, variable, true)?;
        Ok(())
    }

    // Gives a variable that isn't there a value, which is known to be within the limit of depth or
    // isn't. `Memory`: want of memory; the store stays as it was.
    fn begin(&mut self, number: usize, value: Value, is_shallow: bool) -> Result<(), Memory>
        requires known { number < length self.old.variables.items }
        requires absent { is_numbered (trees_of self.old.variables.items) number ≡ false }
        requires shallow { IsTrue is_shallow → IsShallow (tree_of value) }
        ensures value { OnOk result (self.new.variables.items ≡ set self.old.variables.items number (Some value)) }
        ensures same { OnErr result (self.new.variables.items ≡ self.old.variables.items) }
        ensures event { self.new.event ≡ self.old.event }
        ensures front { IsFront self.old.present.items self.new.present.items }
        ensures as_many { length self.new.variables.items ≡ length self.old.variables.items }
    {
        self.present.push(number)?;
        self.are_shallow = both(self.are_shallow, is_shallow);
        self.variables[number] = Some(value);
        Ok(())
    }

    // Whether a variable is there.
    fn has(&self, number: usize) -> bool
        requires { number < length self.now.variables.items }
        ensures { result ≡ is_numbered (trees_of self.now.variables.items) number }
    {
        self.variables[number].is_some()
    }

    // Gives a variable that is there another value, which is known to be within the limit of depth
    // or isn't, and gives what stood in it.
    fn exchange(&mut self, number: usize, value: Value, is_shallow: bool) -> Option<HiddenValue>
        requires known { number < length self.old.variables.items }
        requires there { is_numbered (trees_of self.old.variables.items) number ≡ true }
        requires shallow { IsTrue is_shallow → IsShallow (tree_of value) }
        ensures given { option_map hidden_tree result ≡ unwrap_or
            (slice_get (trees_of self.old.variables.items) number) None }
        ensures value { self.new.variables.items ≡ set self.old.variables.items number (Some value) }
        ensures event { self.new.event ≡ self.old.event }
        ensures present { self.new.present.items ≡ self.old.present.items }
    {
        let were_shallow = self.are_shallow;
        self.are_shallow = both(were_shallow, is_shallow);
        let hidden = std::mem::replace(&mut self.variables[number], Some(value));
        HiddenValue::of(hidden, were_shallow)
    }

    /// Binds a name of a closure: its variable has this value from here on. What the variable had
    /// is given, where it was there. `Memory`: want of memory; the store stays as it was, and the
    /// value is gone.
    pub fn bind(&mut self, number: usize, value: Value) -> Result<Option<HiddenValue>, Memory>
        requires known { number < count_of self.old }
        ensures bound { OnOk result ((names : Names) → AreNames names self.old
            → store_in names self.new ≡ with_value (Name (name_at names number)) (tree_of value)
            (store_in names self.old)) }
        ensures hidden { IfOk result (λ hidden. (names : Names) → AreNames names self.old
            → option_map hidden_tree hidden ≡ value_of (Name (name_at names number)) (store_in names self.old)) }
        ensures there { IfOk result
            (λ hidden. IfSome hidden (λ value. IsTrue (is_held number (present_of self.old)))) }
        ensures same { OnErr result ((names : Names) → AreNames names self.old
            → store_in names self.new ≡ store_in names self.old) }
        ensures front { IsFront (present_of self.old) (present_of self.new) }
        ensures as_many { count_of self.new ≡ count_of self.old }
    {
        let is_shallow = value.depth() <= DEPTH_LIMIT;
        if self.has(number) {
            return Ok(self.exchange(number, value, is_shallow));
        }
        self.begin(number, value, is_shallow)?;
        Ok(None)
    }

    /// Gives a variable that is there the value back that a name of a closure hid, behind the end
    /// of the body. It takes no memory.
    pub fn give_back(&mut self, number: usize, hidden: HiddenValue)
        requires { IsTrue (is_held number (present_of self.old)) }
        ensures back { (names : Names) → AreNames names self.old
            → store_in names self.new ≡ with_value (Name (name_at names number)) (hidden_tree hidden)
            (store_in names self.old) }
        ensures present { present_of self.new ≡ present_of self.old }
        ensures as_many { count_of self.new ≡ count_of self.old }
    {
        let HiddenValue { value, is_shallow } = hidden;
        let _bound = self.exchange(number, value, is_shallow);
    }

    /// Takes out what stands at a place, and gives it; null where nothing does. Of the event's root
    /// and of the metadata's an empty object is left, and of another variable's null. `Memory`: want
    /// of memory; the store stays as it was.
    pub fn take(&mut self, alloc: Global, target: &TargetPath) -> Result<Value, Memory>
        requires base { IsKnown (count_of self.old) target.now.base }
        ensures value { IfOk result (λ value. (names : Names) → AreNames names self.old
            → tree_of value ≡ spec.read_in (root_of names target.now.base) target.now.path (store_in names self.old)) }
        ensures removed { OnOk result ((names : Names) → AreNames names self.old
            → store_in names self.new ≡ spec.removed (root_of names target.now.base) target.now.path
            (store_in names self.old)) }
        ensures same { OnErr result ((names : Names) → AreNames names self.old
            → store_in names self.new ≡ store_in names self.old) }
        ensures front { IsFront (present_of self.old) (present_of self.new) }
        ensures as_many { count_of self.new ≡ count_of self.old }
    {
        if target.path.as_slice().is_empty() {
            return self.take_root(alloc, target.base);
        }
        Ok(self.take_part(target.base, &target.path))
    }

    // Takes out a whole root.
    fn take_root(&mut self, alloc: Global, base: Base) -> Result<Value, Memory>
        requires base { IsKnown (count_of self.old) base }
        ensures value { IfOk result (λ value. (names : Names) → AreNames names self.old
            → tree_of value ≡ spec.root_value (root_of names base) (store_in names self.old)) }
        ensures removed { OnOk result ((names : Names) → AreNames names self.old
            → store_in names self.new ≡ spec.removed (root_of names base) [] (store_in names self.old)) }
        ensures same { OnErr result ((names : Names) → AreNames names self.old
            → store_in names self.new ≡ store_in names self.old) }
        ensures front { IsFront self.old.present.items self.new.present.items }
        ensures as_many { length self.new.variables.items ≡ length self.old.variables.items }
    {
        match base {
            Base::Event => Ok(std::mem::replace(&mut self.event, empty_object(alloc))),
            Base::Variable(number) => {
                let left = left_of(alloc, number);
                match &mut self.variables[number] {
                    Some(variable) => Ok(std::mem::replace(variable, left)),
                    None => {
                        self.begin(number, left, true)?;
                        Ok(Value::Null)
                    }
                }
            }
        }
    }

    // Takes out what stands at a path of a root; null where nothing does.
    fn take_part(&mut self, base: Base, path: &Path) -> Value
        requires base { IsKnown (count_of self.old) base }
        requires part { 0 < length path.now }
        ensures value { (names : Names) → AreNames names self.old
            → tree_of result ≡ spec.read_in (root_of names base) path.now (store_in names self.old) }
        ensures removed { (names : Names) → AreNames names self.old
            → store_in names self.new ≡ spec.removed (root_of names base) path.now (store_in names self.old) }
        ensures front { IsFront self.old.present.items self.new.present.items }
        ensures as_many { length self.new.variables.items ≡ length self.old.variables.items }
    {
        match base {
            Base::Event => take_from(&mut self.event, path),
            Base::Variable(number) => match &mut self.variables[number] {
                Some(variable) => take_from(variable, path),
                None => Value::Null,
            },
        }
    }

    /// How many variables are there beside the metadata.
    pub fn count(&self) -> usize
        ensures { result ≡ length (present_of self.now) }
    {
        self.present.len()
    }

    /// Ends a block before which so many variables were there beside the metadata: those that came
    /// in it go.
    pub fn leave(&mut self, count: usize)
        requires within { count ≤ length (present_of self.old) }
        ensures left { (names : Names) → AreNames names self.old
            → store_in names self.new ≡ left_with names (take count (present_of self.old)) (store_in names self.old) }
        ensures present { present_of self.new ≡ take count (present_of self.old) }
        ensures as_many { count_of self.new ≡ count_of self.old }
    {
        while self.present.len() > count {
            self.end_last();
        }
    }

    // Ends the variable that came last.
    fn end_last(&mut self)
        requires some { 0 < length self.old.present.items }
        ensures present { self.new.present.items ≡ take (length self.old.present.items - 1) self.old.present.items }
        ensures stay { Stay (trees_of self.old.variables.items)
            (trees_of self.new.variables.items) (0 ∷ self.new.present.items) }
        ensures event { self.new.event ≡ self.old.event }
        ensures as_many { length self.new.variables.items ≡ length self.old.variables.items }
    {
        if let Some(number) = self.present.pop() {
            self.variables[number] = None;
        }
    }

    /// The event, the metadata, and the variables that are there with their names, among them the
    /// metadata once more. `Memory`: out of memory.
    pub fn into_parts(self, alloc: Global, names: &Names) -> Result<(Value, Value, Fields), Memory>
        requires { AreNames names.now self }
        ensures event { IfOk result (λ parts. tree_of parts.0 ≡ event_of self) }
        ensures metadata { IfOk result
            (λ parts. value_of metadata (store_in names.now self) ≡ Some (tree_of parts.1)) }
        ensures variables { IfOk result (λ parts. map_of (members_of parts.2) ≡ (store_in names.now self).variables) }
        ensures told { IfOk result (λ parts. AreToldByMap (members_of parts.2)) }
    {
        let beside = self.root(Base::Variable(METADATA)).copy(alloc)?;
        let Store {
            event,
            is_shallow: _,
            variables,
            are_shallow: _,
            present: _,
            null: _,
        } = self;
        let fields = named(alloc, variables, names)?;
        Ok((event, beside, fields))
    }

    /// The event and the metadata alone.
    pub fn into_roots(self) -> (Value, Value)
        ensures event { tree_of result.0 ≡ event_of self }
        ensures metadata { (names : Names) → AreNames names self
            → value_of metadata (store_in names self) ≡ Some (tree_of result.1) }
    {
        let Store {
            event,
            is_shallow: _,
            variables,
            are_shallow: _,
            present: _,
            null: _,
        } = self;
        (event, metadata_of(variables))
    }
}

// Sets a value at a path of a root, which is known to be within the limit of depth or isn't.
fn set_in(
    alloc: Global,
    root: &mut Value,
    is_shallow: bool,
    path: &Path,
    value: Value,
) -> Result<(), SetFault>
    requires writable { IsWritable path.now }
    requires shallow { IsTrue is_shallow → IsShallow (tree_of root.old) }
    ensures ok { OnOk result (tree_of root.new ≡ set_tree (tree_of root.old) path.now (tree_of value)) }
    ensures within { OnOk result (IsShallow (tree_of root.new)) }
    ensures deep { result ≡ Err SetFault.TooDeep
        → depth_limit < depth_of (set_tree (tree_of root.old) path.now (tree_of value)) }
    ensures want { result ≡ Err SetFault.Memory → IsShallow (set_tree (tree_of root.old) path.now (tree_of value)) }
    ensures err { OnErr result (tree_of root.new ≡ tree_of root.old) }
{
    set_trees_are_sets();
    if !is_shallow {
        return set(alloc, root, path, value);
    }
    if is_too_deep(path, &value) {
        return Err(SetFault::TooDeep);
    }
    put(alloc, root, path, value)?;
    Ok(())
}

// Whether both are true.
fn both(first: bool, second: bool) -> bool
    ensures { result ≡ (first && second) }
{
    first && second
}

// Takes out what stands at a path of a value; null where nothing does.
fn take_from(value: &mut Value, path: &Path) -> Value
    requires part { 0 < length path.now }
    ensures value { tree_of result ≡ spec.part_of (tree_of value.old) path.now }
    ensures rest { tree_of value.new ≡ remove_tree (tree_of value.old) path.now }
{
    match remove(value, path) {
        Some(part) => part,
        None => Value::Null,
    }
}

// Null with a value at a path.
fn set_null(alloc: Global, path: &Path, value: Value) -> Result<Value, SetFault>
    requires { IsWritable path.now }
    ensures ok { IfOk result (λ root. tree_of root ≡ set_tree null path.now (tree_of value)) }
    ensures within { IfOk result (λ root. IsShallow (tree_of root)) }
    ensures deep { result ≡ Err SetFault.TooDeep → depth_limit < depth_of (set_tree null path.now (tree_of value)) }
    ensures want { result ≡ Err SetFault.Memory → IsShallow (set_tree null path.now (tree_of value)) }
{
    let mut root = Value::Null;
    set_in(alloc, &mut root, true, path, value)?;
    Ok(root)
}

// Whether a value at the end of a path is deeper than the limit.
fn is_too_deep(path: &Path, value: &Value) -> bool
    ensures { IsTrue result ↔ (depth_limit < length path.now + depth_of (tree_of value.now)) }
{
    let depth = value.depth();
    let length = path.as_slice().len() as u64;
    depth > DEPTH_LIMIT || length > DEPTH_LIMIT - depth
}
