// Laws of the definitions, each the contract of a function that does nothing.
ghost use Rattle.std.specs.Prelude.{◌≡◌, ◌≢◌, ℕ, ◌-◌, ◌<◌, ◌⊎◌, true, false, List, Option, Some, Ok, Err, [], ◌∷◌, ◌++◌, length, take, drop, slice_get, slice_set, IsSomeAnd};
ghost use Rattle.type_definitions.specs.declared.definition.TypeDef.{TypeDef};
ghost use Rattle.type_definitions.specs.declared.definition.TypeDef.TheVariants.{Ref, Iref};
ghost use Rattle.type_definitions.specs.Same.{IsGraph};
ghost use Rattle.mu_values.specs.declared.scalars.Scalar.{Scalar};
ghost use Rattle.typed_heap.specs.declared.faults.PlaceFault.{PlaceFault};
ghost use Rattle.mu_values.specs.declared.cells.CellId.{CellId};
ghost use Rattle.typed_heap.specs.Objects.{HeapObject, leaf_classes, object_of, killed, filled};
ghost use Rattle.typed_heap.specs.Fits.{World, place_fits, DefinitionFits, ScalarFits, ScalarsFit, ValueFits};
ghost use Rattle.typed_heap.specs.Places.{Move, find_place, cast, cell_of};
ghost use Rattle.typed_heap.specs.Heap.{hybrid_classes, newest_cells};
ghost use Rattle.typed_heap.specs.Laws.{ObjectFits, KeepsLeaves, Grows};

/// A new object has one scalar for each leaf, zero or NULL, that fits it.
pub fn new_objects_fit()
    ensures object { (graph : List TypeDef) (w : World) (t : ℕ) → IsGraph graph → ObjectFits graph w (object_of graph (leaf_classes graph t)) }
    ensures hybrid { (graph : List TypeDef) (w : World) (t many : ℕ) → IsGraph graph → ObjectFits graph w (object_of graph (hybrid_classes graph t many)) }
{}

/// An object goes on to have one fitting scalar for each leaf when cells are given others that fit, and when its cells die.
pub fn changed_objects_fit()
    ensures filled { (graph : List TypeDef) (w : World) (o : HeapObject) (at : ℕ) (ss : List Scalar) → ObjectFits graph w o → ScalarsFit graph w (take (length ss) (drop at o.leaves)) ss → ObjectFits graph w (filled at ss o) }
    ensures killed { (graph : List TypeDef) (w : World) (o : HeapObject) → ObjectFits graph w o → ObjectFits graph w (killed o) }
{}

/// What fits goes on to fit in a world that has grown.
pub fn what_fits_stays()
    ensures definition { (graph : List TypeDef) (w v : World) (d : TypeDef) (s : Scalar) → Grows w v → DefinitionFits graph w d s → DefinitionFits graph v d s }
    ensures scalar { (graph : List TypeDef) (w v : World) (c : ℕ) (s : Scalar) → Grows w v → ScalarFits graph w c s → ScalarFits graph v c s }
    ensures scalars { (graph : List TypeDef) (w v : World) (cs : List ℕ) (ss : List Scalar) → Grows w v → ScalarsFit graph w cs ss → ScalarsFit graph v cs ss }
    ensures value { (graph : List TypeDef) (w v : World) (c : ℕ) (ss : List Scalar) → Grows w v → ValueFits graph w c ss → ValueFits graph v c ss }
{}

/// The objects keep their leaves when one is added, when the cells of one die, and when cells are given other scalars.
pub fn calls_keep_leaves()
    ensures added { (os : List HeapObject) (o : HeapObject) → KeepsLeaves os (os ++ o ∷ []) }
    ensures killed { (os : List HeapObject) (n : ℕ) (o : HeapObject) → slice_get os n ≡ Some o → KeepsLeaves os (slice_set os n (killed o)) }
    ensures filled { (os : List HeapObject) (n : ℕ) (o : HeapObject) (at : ℕ) (ss : List Scalar) → slice_get os n ≡ Some o → KeepsLeaves os (slice_set os n (filled at ss o)) }
{}

/// Taking back the newest object undoes the making of it.
pub fn taking_back_undoes_making()
    ensures objects { (os : List HeapObject) (o : HeapObject) → take (length (os ++ o ∷ []) - 1) (os ++ o ∷ []) ≡ os }
    ensures cells { (os : List HeapObject) (o : HeapObject) → newest_cells (os ++ o ∷ []) ≡ length o.leaves }
{}

/// A place that is found fits the references to places of the wanted type, a reference that is cast fits its target, and a cell that
/// is found is there and is not dead.
pub fn what_is_found_fits()
    ensures places { (graph : List TypeDef) (w : World) (way : Move) (s p : Scalar) → find_place graph w.objects (Some way) s ≡ Some (Ok p) → DefinitionFits graph w (Iref way.wanted) p }
    ensures references { (graph : List TypeDef) (w : World) (t : ℕ) (s r : Scalar) → cast graph w.objects (Some (Ref t)) s ≡ Some (Ok r) → DefinitionFits graph w (Ref t) r }
    ensures irefs { (graph : List TypeDef) (w : World) (t : ℕ) (s r : Scalar) → cast graph w.objects (Some (Iref t)) s ≡ Some (Ok r) → DefinitionFits graph w (Iref t) r }
    ensures same { (graph : List TypeDef) (os : List HeapObject) (d : Option TypeDef) (s r : Scalar) → cast graph os d s ≡ Some (Ok r) → r ≡ s }
    ensures cells { (os : List HeapObject) (s : Scalar) (cell : CellId) → cell_of os s ≡ Some (Ok cell) → IsSomeAnd (slice_get os cell.object) (λ o. (cell.at < length o.leaves) × (o.dead ≡ false)) }
{}

/// The end of an object fits the references to places of every type.
pub fn the_end_fits()
    ensures { (graph : List TypeDef) (t : ℕ) (o : HeapObject) → place_fits graph t o (length o.leaves) ≡ true }
{}

/// A cast has no fault but `BadCast`, a place that is looked for none but `Null` and `OutOfRange`, and a cell all but `BadCast`.
pub fn faults_of_each()
    ensures casts { (graph : List TypeDef) (os : List HeapObject) (d : Option TypeDef) (s : Scalar) (fault : PlaceFault) → cast graph os d s ≡ Some (Err fault) → fault ≡ PlaceFault.BadCast }
    ensures places { (graph : List TypeDef) (os : List HeapObject) (m : Option Move) (s : Scalar) (fault : PlaceFault) → find_place graph os m s ≡ Some (Err fault) → (fault ≡ PlaceFault.Null) ⊎ (fault ≡ PlaceFault.OutOfRange) }
    ensures cells { (os : List HeapObject) (s : Scalar) (fault : PlaceFault) → cell_of os s ≡ Some (Err fault) → fault ≢ PlaceFault.BadCast }
{}
