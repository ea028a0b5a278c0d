//! Initial values.

ghost use Rattle.std.specs.Prelude.{◌≡◌, ◌∷◌, [], pos, negsuc, true, codes, None, Some};
ghost use Rattle.st_types.specs.declared.kind.Kind.TheVariants.{Int, Sint, Bool as Boolean};
ghost use Rattle.st_types.specs.declared.literal.Literal.TheVariants.{Truth, Number, Enumerated};
ghost use Rattle.st_types.specs.Initials.{constant, list, structure, single, repeated, defaults, elements_of};
ghost use Rattle.st_types.specs.Initials.{members_of};
ghost use Rattle.st_rules.specs.declared.rule.Rule.TheVariants.{UnknownName, DeclaredTwice, WrongType, OutOfRange};
ghost use Rattle.st_types.specs.Declarations as declarations;
ghost use Rattle.st_types.specs.Sources.{types};
ghost use Rattle.st_rules.specs.declared.rule.Rule.TheVariants.{WrongBounds};
ghost use Rattle.st_rules.specs.ExampleWords.{broken_rules};
ghost use Rattle.st_rules.specs.ExampleWords.{breaks, at, digits, typed_digits, elementary, named, starting};
ghost use Rattle.st_rules.specs.ExampleWords.{start_of, local};
ghost use Rattle.st_rules.specs.ExampleWords.{with_pair, defining, N, M, B, X};
ghost use Rattle.st_rules.specs.ExampleTexts.{starting_array, starting_structures, configuring, one_global, A};
ghost use Rattle.st_rules.specs.ExampleWords as words;

/// Constants and lists.
pub fn values()
    // n : INT := 5, n : INT := TRUE, n : INT := 40000, n : INT := SINT#5
    ensures fitting { broken_rules (local (starting (at 14 N) (elementary Int) (start_of 25 (pos 5)) ∷ [])) ≡ [] }
    ensures other_type { broken_rules (local (starting (at 14 N) (elementary Int) (constant (Truth 25 true)) ∷ []))
        ≡ breaks WrongType 25 ∷ [] }
    ensures too_great { broken_rules (local (starting (at 14 N) (elementary Int) (start_of 25 (pos 40000)) ∷ []))
        ≡ breaks OutOfRange 25 ∷ [] }
    ensures typed { broken_rules
        (local (starting (at 14 N) (elementary Int) (constant (Number (typed_digits 25 Sint (pos 5)))) ∷ []))
        ≡ breaks WrongType 25 ∷ [] }
    // n : foo := TRUE: only the type is reported
    ensures of_unknown_type { broken_rules (local (starting (at 14 N) (named 18 (codes "FOO")) (constant (Truth 25 true))
        ∷ []))
        ≡ breaks UnknownName 18 ∷ [] }
    // n : foo := [1], n : foo := (m := 1), n : foo := m: a name stands for a value, whatever the type
    ensures list_for_unknown { broken_rules
        (local (starting (at 14 N) (named 18 (codes "FOO")) (list 25 (elements_of (single (start_of 26 (pos 1))
        ∷ []))) ∷ []))
        ≡ breaks UnknownName 18 ∷ [] }
    ensures structure_for_unknown { broken_rules
        (local (starting (at 14 N) (named 18 (codes "FOO")) (structure 25 (members_of ((
          at 26 M,
          start_of 31
              (pos 1),
        ) ∷ []))) ∷ []))
        ≡ breaks UnknownName 18 ∷ [] }
    ensures name_for_unknown { broken_rules
        (local (starting (at 14 N) (named 18 (codes "FOO")) (constant (Enumerated (words.bare 25 M))) ∷ []))
        ≡ breaks UnknownName 18 ∷ breaks UnknownName 25 ∷ [] }
    // n : ARRAY [1..2] OF INT := [1, 2]
    ensures all_elements { broken_rules (local (starting (at 14 N) (words.array 18 (pos 1) (pos 2))
        (list 40 (elements_of (single (start_of 41 (pos 1)) ∷ single (start_of 44 (pos 2)) ∷ []))) ∷ [])) ≡ [] }
    // .. := [1, 2(0)]
    ensures too_long { broken_rules (local (starting (at 14 N) (words.array 18 (pos 1) (pos 2))
        (list 40 (elements_of (single (start_of 41 (pos 1)) ∷ repeated (digits 44 (pos 2)) (start_of 46 (pos 0)) ∷ [])))
        ∷ [])) ≡ breaks WrongBounds 40 ∷ [] }
    // .. := [0(9), 2()]: a count of 0 stands for no element
    ensures no_element { broken_rules (local (starting (at 14 N) (words.array 18 (pos 1) (pos 2))
        (list 40 (elements_of (repeated (digits 41 (pos 0)) (start_of 43 (pos 9)) ∷ defaults (digits 47 (pos 2)) ∷ [])))
        ∷ [])) ≡ [] }
    // .. := [SINT#200(1)]: both the count and the list
    ensures count_out_of_range { broken_rules (local (starting (at 14 N) (words.array 18 (pos 1) (pos 2))
        (list 40 (elements_of (repeated (typed_digits 41 Sint (pos 200)) (start_of 51 (pos 1)) ∷ []))) ∷ []))
        ≡ breaks WrongBounds 40 ∷ breaks OutOfRange 41 ∷ [] }
    // .. := [TRUE]
    ensures element_of_other_type { broken_rules (local (starting (at 14 N) (words.array 18 (pos 1) (pos 2))
        (list 40 (elements_of (single (constant (Truth 41 true)) ∷ []))) ∷ [])) ≡ breaks WrongType 41 ∷ [] }
    // .. := 5, and n : INT := [5]
    ensures no_list { broken_rules (local (starting (at 14 N) (words.array 18 (pos 1) (pos 2)) (start_of 40 (pos 5)) ∷ []))
        ≡ breaks WrongType 40 ∷ [] }
    ensures list_for_a_number { broken_rules (local (starting (at 14 N) (elementary Int) (list 25 (elements_of (single
        (start_of 26 (pos 5)) ∷ [])))
        ∷ []))
        ≡ breaks WrongType 25 ∷ [] }
{}

/// Lists for `n : ARRAY [1..2] OF INT`.
pub fn lists()
    // [3()], [3(0)]: each count stands for that number of elements
    ensures defaults_too_many { broken_rules (starting_array (defaults (digits 41 (pos 3)) ∷ []))
        ≡ breaks WrongBounds 40 ∷ [] }
    ensures repeated_too_many { broken_rules (starting_array (repeated (digits 41 (pos 3)) (start_of 43 (pos 0)) ∷ []))
        ≡ breaks WrongBounds 40 ∷ [] }
    // [1, 1()], [1, 2()]
    ensures number_and_default { broken_rules (starting_array (single (start_of 41 (pos 1)) ∷ defaults (digits 44 (pos 1))
        ∷ []))
        ≡ [] }
    ensures number_and_defaults { broken_rules (starting_array (single (start_of 41 (pos 1))
        ∷ defaults (digits 44 (pos 2)) ∷ []))
        ≡ breaks WrongBounds 40 ∷ [] }
    // [1]: the second has its default value
    ensures shorter { broken_rules (starting_array (single (start_of 41 (pos 1)) ∷ [])) ≡ [] }
    // [1, 2, 3]
    ensures three { broken_rules (starting_array (single (start_of 41 (pos 1)) ∷ single (start_of 44 (pos 2))
        ∷ single (start_of 47 (pos 3)) ∷ [])) ≡ breaks WrongBounds 40 ∷ [] }
    // [2(TRUE)], [2(40000)], [1, 40000]
    ensures repeated_of_other_type { broken_rules (starting_array (repeated (digits 41 (pos 2)) (constant (Truth 43 true))
        ∷ []))
        ≡ breaks WrongType 43 ∷ [] }
    ensures repeated_too_great { broken_rules (starting_array (repeated (digits 41 (pos 2)) (start_of 43 (pos 40000)) ∷ []))
        ≡ breaks OutOfRange 43 ∷ [] }
    ensures second_too_great { broken_rules (starting_array (single (start_of 41 (pos 1))
        ∷ single (start_of 44 (pos 40000)) ∷ []))
        ≡ breaks OutOfRange 44 ∷ [] }
    // [SINT#200()]: both the count and the list
    ensures count_out_of_range { broken_rules (starting_array (defaults (typed_digits 41 Sint (pos 200)) ∷ []))
        ≡ breaks WrongBounds 40 ∷ breaks OutOfRange 41 ∷ [] }
    // [0(TRUE)]: it stands for no element, but is checked
    ensures none_of_other_type { broken_rules (starting_array (repeated (digits 41 (pos 0)) (constant (Truth 43 true)) ∷ []))
        ≡ breaks WrongType 43 ∷ [] }
{}

/// Values inside others, of `TYPE x : STRUCT n : INT; a : ARRAY [1..2] OF INT; END_STRUCT; t : ARRAY [1..2] OF x;
/// END_TYPE`.
pub fn inside()
    // f : t := [(n := 1, a := [1, 2]), (a := [3])]
    ensures fitting { broken_rules (starting_structures (list 110 (elements_of
        (single (structure 111 (members_of ((at 112 N, start_of 117 (pos 1))
        ∷ (at 120 A, list 125 (elements_of (single (start_of 126 (pos 1)) ∷ single (start_of 129 (pos 2)) ∷ [])))
        ∷ [])))
        ∷ single (structure 133 (members_of ((at 134 A, list 139 (elements_of (single (start_of 140 (pos 3)) ∷ [])))
        ∷ [])))
        ∷ [])))) ≡ [] }
    // f : t := [(a := [3(1)])]: the list of the field
    ensures field_too_long { broken_rules (starting_structures (list 110 (elements_of
        (single (structure 111 (members_of ((
          at 112 A,
          list 117 (elements_of (repeated (digits 118 (pos 3))
              (start_of 120 (pos 1)) ∷ [])),
        )
        ∷ []))) ∷ [])))) ≡ breaks WrongBounds 117 ∷ [] }
    // f : t := [2((n := TRUE))]
    ensures field_of_other_type { broken_rules (starting_structures (list 110 (elements_of
        (repeated (digits 111 (pos 2)) (structure 113 (members_of ((at 114 N, constant (Truth 119 true)) ∷ [])))
        ∷ []))))
        ≡ breaks WrongType 119 ∷ [] }
    // f : t := [2((m := 1))]
    ensures unknown_field { broken_rules (starting_structures (list 110 (elements_of
        (repeated (digits 111 (pos 2)) (structure 113 (members_of ((at 114 M, start_of 119 (pos 1)) ∷ []))) ∷ []))))
        ≡ breaks UnknownName 114 ∷ [] }
    // f : t := [1], f : t := (n := 1)
    ensures number_for_a_structure { broken_rules (starting_structures (list 110 (elements_of (single (start_of 111
        (pos 1)) ∷ []))))
        ≡ breaks WrongType 111 ∷ [] }
    ensures structure_for_an_array { broken_rules (starting_structures (structure 110 (members_of ((
      at 111 N,
      start_of 116
          (pos 1),
    ) ∷ []))))
        ≡ breaks WrongType 110 ∷ [] }
    // VAR_GLOBAL n : INT := TRUE; END_VAR
    ensures of_a_global { broken_rules (configuring None (one_global 40 N (elementary Int) (Some (constant
        (Truth 51 true))) ∷ []) [])
        ≡ breaks WrongType 51 ∷ [] }
    // TYPE x : STRUCT n : INT := 40000; END_STRUCT; END_TYPE
    ensures of_a_field { broken_rules (types (defining (at 5 X) (declarations.structure
        (record { name = at 16 N; declared = elementary Int; initial = Some (start_of 27 (pos 40000)) } ∷ [])) ∷ [])
        ∷ [])
        ≡ breaks OutOfRange 27 ∷ [] }
{}

/// Structures, of `TYPE x : STRUCT n : INT; b : BOOL; END_STRUCT; END_TYPE`.
pub fn structures()
    // (b := TRUE, n := 5)
    ensures fitting { broken_rules
        (with_pair (structure 80
        (members_of ((at 81 B, constant (Truth 86 true)) ∷ (at 92 N, start_of 97 (pos 5)) ∷ []))))
        ≡ [] }
    // (m := 5)
    ensures unknown_field { broken_rules (with_pair (structure 80 (members_of ((at 81 M, start_of 86 (pos 5)) ∷ []))))
        ≡ breaks UnknownName 81 ∷ [] }
    // (n := 5, n := 6)
    ensures field_twice { broken_rules
        (with_pair (structure 80 (members_of ((at 81 N, start_of 86 (pos 5)) ∷ (at 92 N, start_of 97 (pos 6)) ∷ []))))
        ≡ breaks DeclaredTwice 92 ∷ [] }
    // (n := TRUE)
    ensures field_of_other_type { broken_rules (with_pair (structure 80 (members_of ((at 81 N, constant (Truth 86 true))
        ∷ []))))
        ≡ breaks WrongType 86 ∷ [] }
    // 5, and [5]
    ensures no_structure { broken_rules (with_pair (start_of 80 (pos 5))) ≡ breaks WrongType 80 ∷ [] }
    ensures list_for_a_structure { broken_rules (with_pair (list 80 (elements_of (single (start_of 81 (pos 5)) ∷ []))))
        ≡ breaks WrongType 80 ∷ [] }
{}
