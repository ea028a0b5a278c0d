//! Laws of layouts.

ghost use Rattle.std.specs.Prelude.{◌≡◌, ℕ, List, [], ◌∷◌, map, filter, Option, Some, None, true, false, slice_get, Ok};
ghost use Rattle.std.specs.Prelude.{pos, length, ◌≤◌};
ghost use Rattle.std.specs.List.{list_any};
ghost use Rattle.st_types.specs.declared.kind.Kind.{Kind};
ghost use Rattle.st_types.specs.declared.literal.Literal.{Literal};
ghost use Rattle.st_types.specs.declared.path.Owner.{Owner};
ghost use Rattle.st_types.specs.declared.path.Step.{Step};
ghost use Rattle.st_types.specs.Kinds.{holds};
ghost use Rattle.st_types.specs.Values.{Datum};
ghost use Rattle.st_types.specs.Paths.{begins_with, is_within};
ghost use Rattle.st_types.specs.Initials.{constant};
ghost use Rattle.st_types.specs.declared.data_type.VariableType.{VariableType};
ghost use Rattle.st_types.specs.Sources.{Source};
ghost use Rattle.st_meaning.specs.NameTypes.{Declared, declared_in};
ghost use Rattle.st_meaning.specs.Operators.{value_of_literal};
ghost use Rattle.st_meaning.specs.Scopes.{Name};
ghost use Rattle.st_meaning.specs.Slots.{Slot, IsLayout};
ghost use Rattle.st_meaning.specs.Stores.{IsStore, get, shape_of, all_held};
ghost use Rattle.st_meaning.specs.Layouts.{variable_slot, input_slot};
ghost use Rattle.st_meaning.specs.Plans.{Plan, is_retained};
ghost use Rattle.layout.specs.Shapes.{Shape, Leaf, size, leaves_of, Position, position_of, leads_on, is_sound};
ghost use Rattle.st_rules.specs.declared.limits.TheConstants.{MAX_TYPE_DEPTH};
ghost use Rattle.layout.specs.Types.{Site, shape_of_type, shape_within, is_within_depth};
ghost use Rattle.layout.specs.Sites.{initial_at, retained_at};
ghost use Rattle.layout.specs.LayoutVariables.{Owned, layout_variables, declared_of, configurations_in};
ghost use Rattle.layout.specs.LayoutVariables.{only_configuration, variables_of_configuration};
ghost use Rattle.layout.specs.TextLayouts.{further, variable_shape, slots_of, slots_of_variable, plan_variables_of};
ghost use Rattle.layout.specs.TextLayouts.{plan_inputs_of};
ghost use Rattle.layout.specs.TextLayouts.{variable_slots, input_slots, types_of_slots, initial_values};
ghost use Rattle.layout.specs.TextLayouts.{initial_image, slots_of_text, plan_variables_of_text};
ghost use Rattle.layout.specs.TextLayouts.{plan_inputs_of_text};
ghost use Rattle.layout.specs.VariableSlots.{path_to, are_declared_once, variable_at, position_among, LiesAt};
ghost use Rattle.layout.specs.VariableSlots.{IsDeclared};
ghost use Rattle.layout.specs.Names.{has_different_names};

/// A shape has as many leaves as its size says. A part is among them at its position, and nowhere else if no two parts
/// of one whole have the same name; then steps lead on exactly when those to some leaf begin with them.
pub fn leaves_of_shapes()
    ensures count { (sh : Shape) → length (leaves_of sh) ≡ size sh }
    ensures there { (sh : Shape) (xs : List Step) (o : Position) → position_of sh xs ≡ Some o
        → slice_get (leaves_of sh) o.number ≡ Some record { steps = xs; kind = o.kind } }
    ensures nowhere_else { (sh : Shape) → is_sound sh ≡ true → (n : ℕ) (l : Leaf) → slice_get (leaves_of sh) n ≡ Some l
        → position_of sh l.steps ≡ Some record { number = n; kind = l.kind } }
    ensures beginnings { (sh : Shape) → is_sound sh ≡ true → (xs : List Step)
        → list_any (λ l. begins_with l.steps xs) (leaves_of sh) ≡ leads_on sh xs }
{}

/// In the layout of variables that are declared once each path has one slot, given with its type by its declaration and
/// its steps. Each variable takes consecutive slots with all its parts, and its slots are exactly those whose paths
/// begin with its name.
pub fn layouts_of_declared_variables()
    ensures once { (text : Declared) (vs : List Owned) → are_declared_once text vs ≡ true
        → IsLayout (slots_of text vs) }
    ensures number { (text : Declared) (vs : List Owned) → are_declared_once text vs ≡ true → (k : ℕ) (l : Slot)
        → slice_get (slots_of text vs) k ≡ Some l
        → position_among text vs l.path ≡ Some record { number = k; kind = l.kind } }
    ensures stands { (text : Declared) (vs : List Owned) → are_declared_once text vs ≡ true → (o : Option Owner)
        (x : Name) (k : ℕ) (v : Owned) → variable_at text vs o x ≡ Some (k, v)
        → LiesAt (slots_of text vs) v.is_input (path_to o x) (variable_shape text v) k }
    ensures own { (text : Declared) (vs : List Owned) → are_declared_once text vs ≡ true → (o : Option Owner)
        (x : Name) (k : ℕ) (v : Owned) → variable_at text vs o x ≡ Some (k, v)
        → filter (λ l. is_within (path_to o x) l.path) (slots_of text vs) ≡ slots_of_variable text v }
{}

/// Each elementary part of a declared type is declared, with its type; so it has an initial value and a retention.
pub fn parts_are_declared()
    ensures { (text : Declared) (s : Site) (xs : List Step) (o : Position)
        → position_of (shape_of_type text s.declared) xs ≡ Some o → IsDeclared text s xs o.kind }
{}

/// The shape of a type that is at most 64 deep is the same at every depth of expansion from there on.
pub fn types_are_fully_expanded()
    ensures { (text : Declared) (t : VariableType) (n : ℕ) → is_within_depth MAX_TYPE_DEPTH text t ≡ true
        → MAX_TYPE_DEPTH ≤ n → shape_within n text t ≡ shape_of_type text t }
{}

/// Each part of a variable starts with its declared value, and is retained as declared. A written constant that is one
/// of the type is the value; if none is written it is 0, FALSE, T#0s or the first name.
pub fn variables_start_as_declared()
    ensures written { (text : Declared) (s : Site) (l : Literal) (v : Datum) → s.initial ≡ Some (constant l)
        → value_of_literal l ≡ Ok v → holds v.kind v.number ≡ true → initial_at text s [] v.kind ≡ v }
    ensures unwritten { (text : Declared) (s : Site) (k : Kind) → s.initial ≡ None
        → initial_at text s [] k ≡ record { kind = k; number = pos 0 } }
    ensures value { (text : Declared) (vs : List Owned) → are_declared_once text vs ≡ true → (o : Option Owner)
        (x : Name) (k : ℕ) (v : Owned) → variable_at text vs o x ≡ Some (k, v) → v.is_input ≡ false
        → (xs : List Step) (p : Position) → position_of (variable_shape text v) xs ≡ Some p
        → get (initial_values (plan_variables_of text vs)) (further (path_to o x) xs)
        ≡ Some (initial_at text v.site xs p.kind) }
    ensures retention { (text : Declared) (vs : List Owned) → are_declared_once text vs ≡ true → (o : Option Owner)
        (x : Name) (k : ℕ) (v : Owned) → variable_at text vs o x ≡ Some (k, v) → v.is_input ≡ false
        → (xs : List Step) (p : Position) → position_of (variable_shape text v) xs ≡ Some p
        → (plan : Plan) → plan.variables ≡ plan_variables_of text vs
        → is_retained plan (further (path_to o x) xs) ≡ retained_at text v.site xs }
{}

/// The variables and the inputs of a plan have the slots of the layout, in its order, with their types; and each
/// initial value is one that its type holds.
pub fn initial_values_fill_the_layout()
    ensures variables { (text : Declared) (vs : List Owned) → map variable_slot (plan_variables_of text vs)
        ≡ variable_slots (slots_of text vs) }
    ensures inputs { (text : Declared) (vs : List Owned) → map input_slot (plan_inputs_of text vs)
        ≡ input_slots (slots_of text vs) }
    ensures types { (text : Declared) (vs : List Owned) → shape_of (initial_values (plan_variables_of text vs))
        ≡ types_of_slots (variable_slots (slots_of text vs)) }
    ensures held { (text : Declared) (vs : List Owned) → all_held (initial_values (plan_variables_of text vs)) ≡ true }
{}

/// Slots don't depend on literals: those of a text are the same before its literals are resolved.
pub fn slots_depend_on_no_literal()
    ensures { (source : Source) → slots_of_text source ≡ slots_of (declared_in source)
        (variables_of_configuration (declared_in source) (only_configuration (configurations_in source))) }
{}

/// In a text whose names occur once in their scopes each path of the layout occurs once, and the initial values are a store.
pub fn layouts_of_texts()
    ensures once { (source : Source) → has_different_names source ≡ true
        → are_declared_once (declared_of source) (layout_variables source) ≡ true }
    ensures slots { (source : Source) → has_different_names source ≡ true → IsLayout (slots_of_text source) }
    ensures store { (source : Source) → has_different_names source ≡ true
        → IsStore (initial_image (plan_inputs_of_text source)) (initial_values (plan_variables_of_text source)) }
{}
