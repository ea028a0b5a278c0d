//! Enumerated types.

ghost use Rattle.std.specs.Prelude.{◌≡◌, ◌∷◌, [], pos, codes, None, Some};
ghost use Rattle.st_types.specs.declared.kind.Kind.TheVariants.{Int};
ghost use Rattle.st_types.specs.declared.literal.Literal.TheVariants.{Enumerated};
ghost use Rattle.st_types.specs.declared.operator.BinaryOperator.TheVariants.{Equal, NotEqual, Less, Add};
ghost use Rattle.st_types.specs.declared.operator.UnaryOperator.TheVariants.{Negate, Not};
ghost use Rattle.st_types.specs.declared.statement.Label.TheVariants as labels;
ghost use Rattle.st_types.specs.declared.data_type.SimpleType.TheVariants.{Elementary, Named};
ghost use Rattle.st_types.specs.declared.declaration.Section.TheVariants.{Input, Output};
ghost use Rattle.st_types.specs.declared.unit.UnitSort.TheVariants.{Function, FunctionBlock};
ghost use Rattle.st_types.specs.Expressions.{literal, read, unary, binary};
ghost use Rattle.st_types.specs.Statements.{IF, FOR, arms_of, no_stmts};
ghost use Rattle.st_types.specs.Declarations.{structure, array, enumeration};
ghost use Rattle.st_types.specs.Initials.{constant};
ghost use Rattle.st_types.specs.Sources.{types};
ghost use Rattle.st_rules.specs.declared.rule.Rule.TheVariants.{UnknownName, DeclaredTwice, WrongType, WrongLabel};
ghost use Rattle.st_rules.specs.declared.rule.Rule.TheVariants.{TooManyNames, TooDeep};
ghost use Rattle.st_rules.specs.ExampleWords.{broken_rules};
ghost use Rattle.st_rules.specs.TypeRules.{surplus_name};
ghost use Rattle.st_rules.specs.ExampleWords as words;
ghost use Rattle.st_rules.specs.ExampleWords.{setting, breaks, at, number, name, reading, bare, of_type, calling};
ghost use Rattle.st_rules.specs.ExampleWords.{named};
ghost use Rattle.st_rules.specs.ExampleWords.{declaring};
ghost use Rattle.st_rules.specs.ExampleWords.{starting, block, organised, defining, step, starting_mode, many_names};
ghost use Rattle.st_rules.specs.ExampleWords.{single};
ghost use Rattle.st_rules.specs.ExampleWords.{case_of, modes, STOPPED, RUNNING, FAULT, CLEAR, MODE, ALARM};
ghost use Rattle.st_rules.specs.ExampleWords.{field_of, array_of, part, element, N, M, F, X};
ghost use Rattle.st_rules.specs.ExampleTexts.{configuring, one_global};

/// In `PROGRAM Step VAR m : Mode; k : Alarm; n : INT; clear : Mode; END_VAR`, with `Mode : (Stopped, Running, Fault)`
/// and `Alarm : (Clear, Fault)`.
pub fn values()
    // `m := Running`
    ensures fitting { broken_rules (step (setting 140 M (reading 145 RUNNING) ∷ [])) ≡ [] }
    // `m := Mode#Fault`
    ensures with_its_type { broken_rules (step (setting 140 M (literal (Enumerated (of_type 145 MODE FAULT))) ∷ []))
        ≡ [] }
    // `m := Mode#Open`
    ensures unknown { broken_rules (step (setting 140 M (literal (Enumerated (of_type 145 MODE (codes "OPEN")))) ∷ []))
        ≡ breaks UnknownName 145 ∷ [] }
    // `m := Foo#Fault`
    ensures unknown_type { broken_rules (step (setting 140 M (literal (Enumerated (of_type 145 (codes "FOO") FAULT))) ∷ []))
        ≡ breaks UnknownName 145 ∷ [] }
    // `m := Fault`: two types have it
    ensures ambiguous { broken_rules (step (setting 140 M (reading 145 FAULT) ∷ [])) ≡ breaks WrongType 145 ∷ [] }
    // `m := Alarm#Fault`
    ensures other_type { broken_rules (step (setting 140 M (literal (Enumerated (of_type 145 ALARM FAULT))) ∷ []))
        ≡ breaks WrongType 145 ∷ [] }
    // `k := clear`: the variable hides the name, and is a Mode
    ensures hidden { broken_rules (step (setting 140 (codes "K") (reading 145 CLEAR) ∷ []))
        ≡ breaks WrongType 145 ∷ [] }
    // `m := clear`
    ensures variable { broken_rules (step (setting 140 M (reading 145 CLEAR) ∷ [])) ≡ [] }
    // `m := 1`
    ensures number { broken_rules (step (setting 140 M (number 145 (pos 1)) ∷ [])) ≡ breaks WrongType 145 ∷ [] }
    // `n := Running`
    ensures to_a_number { broken_rules (step (setting 140 N (reading 145 RUNNING) ∷ [])) ≡ breaks WrongType 145 ∷ [] }
    // `Running := m`: a value isn't a variable
    ensures assigned { broken_rules (step (setting 140 RUNNING (reading 145 M) ∷ [])) ≡ breaks UnknownName 140 ∷ [] }
    // `IF m = Mode#Fault THEN END_IF`
    ensures compared { broken_rules
        (step (IF (arms_of ((binary Equal (reading 145 M) (literal (Enumerated (of_type 150 MODE FAULT))), no_stmts)
        ∷ [])) no_stmts ∷ [])) ≡ [] }
    // `IF m = k THEN END_IF`
    ensures of_two_types { broken_rules (step (IF (arms_of ((
      binary Equal (reading 145 M) (reading 150
          (codes "K")),
      no_stmts,
    ) ∷ [])) no_stmts
        ∷ []))
        ≡ breaks WrongType 145 ∷ [] }
    // `IF m < Mode#Fault THEN END_IF`: names have no order
    ensures in_order { broken_rules
        (step (IF (arms_of ((binary Less (reading 145 M) (literal (Enumerated (of_type 150 MODE FAULT))), no_stmts)
        ∷ [])) no_stmts ∷ [])) ≡ breaks WrongType 145 ∷ [] }
    // `m := SEL(m = Stopped, m, Running)`
    ensures selected { broken_rules (step (setting 140 M (calling 145 (codes "SEL")
        (binary Equal (reading 149 M) (reading 153 STOPPED) ∷ reading 162 M ∷ reading 165 RUNNING ∷ [])) ∷ [])) ≡ [] }
    // `m := MAX(m, m)`
    ensures greater { broken_rules
        (step (setting 140 M (calling 145 (codes "MAX") (reading 149 M ∷ reading 152 M ∷ [])) ∷ []))
        ≡ breaks WrongType 149 ∷ breaks WrongType 152 ∷ [] }
{}

/// Where these types may take the place of elementary ones, and where not.
pub fn uses()
    // TYPE Mode, Alarm; x : STRUCT m : Mode; END_STRUCT; t : ARRAY [1..2] OF Mode; END_TYPE
    // FUNCTION_BLOCK F VAR_INPUT m : Mode; END_VAR VAR_OUTPUT k : Mode; END_VAR k := m; END_FUNCTION_BLOCK
    // VAR_GLOBAL m : Mode; END_VAR
    ensures declared { broken_rules (types (modes ∷ defining (at 60 X) (structure (field_of (at 70 M) (named 74 MODE) ∷ []))
        ∷ defining (at 80 (codes "T")) (array (array_of 84 (pos 1) (pos 2) (Named (at 99 MODE)))) ∷ [])
        ∷ organised FunctionBlock (at 120 F) (block (Input None) (declaring (at 130 M) (named 134 MODE) ∷ [])
        ∷ block (Output None) (declaring (at 150 (codes "K")) (named 154 MODE) ∷ []) ∷ [])
        (setting 170 (codes "K") (reading 175 M) ∷ [])
        ∷ configuring None (one_global 200 M (named 204 MODE) None ∷ []) []) ≡ [] }
    // m := m + m; n := ABS(m); m := NOT m; m := -m;
    ensures operands { broken_rules (step (setting 140 M (binary Add (reading 145 M) (reading 149 M))
        ∷ setting 160 N (calling 165 (codes "ABS") (reading 169 M ∷ [])) ∷ setting 180 M (unary Not 185 (reading 189 M))
        ∷ setting 200 M (unary Negate 205 (reading 206 M)) ∷ []))
        ≡ breaks WrongType 145 ∷ breaks WrongType 165 ∷ breaks WrongType 169 ∷ breaks WrongType 185
        ∷ breaks WrongType 205
        ∷ [] }
    // FUNCTION F : Mode VAR_INPUT m : Mode; END_VAR F := F(m); .. F := F(1);: it calls itself besides
    ensures given { broken_rules (types (modes ∷ []) ∷ organised (Function (Named (at 63 MODE))) (at 60 F)
        (block (Input None) (declaring (at 70 M) (named 74 MODE) ∷ [])
        ∷ []) (setting 90 F (calling 95 F (reading 97 M ∷ []))
        ∷ setting 110 F (calling 115 F (number 117 (pos 1) ∷ [])) ∷ []) ∷ [])
        ≡ breaks TooDeep 60 ∷ breaks WrongType 117 ∷ [] }
    // IF m THEN END_IF; FOR m := Stopped TO Running DO END_FOR;
    ensures conditions { broken_rules (step (IF (arms_of ((reading 145 M, no_stmts) ∷ [])) no_stmts
        ∷ FOR (at 164 M) (reading 169 STOPPED) (reading 180 RUNNING) None no_stmts ∷ []))
        ≡ breaks WrongType 145 ∷ breaks WrongType 164 ∷ [] }
    // IF m = 0 THEN END_IF; IF m <> Running THEN END_IF;
    ensures comparisons { broken_rules (step (IF (arms_of ((binary Equal (reading 145 M) (number 149 (pos 0)), no_stmts)
        ∷ [])) no_stmts
        ∷ IF (arms_of ((binary NotEqual (reading 165 M) (reading 170 RUNNING), no_stmts) ∷ [])) no_stmts ∷ []))
        ≡ breaks WrongType 145 ∷ [] }
    // clear := Clear: the variable's own name, of the Mode; m := Alarm#Running: not a name of that type
    ensures names { broken_rules (step (setting 140 CLEAR (reading 149 CLEAR)
        ∷ setting 160 M (literal (Enumerated (of_type 165 ALARM RUNNING))) ∷ [])) ≡ breaks UnknownName 165 ∷ [] }
    // Stopped.n, Stopped[1]: a value has no parts
    ensures selected { broken_rules (step (setting 140 N (read (part 145 STOPPED 153 N))
        ∷ setting 160 N (read (element 165 STOPPED (number 173 (pos 1)))) ∷ []))
        ≡ breaks UnknownName 145 ∷ breaks UnknownName 165 ∷ [] }
{}

/// Labels in the same program.
pub fn labels()
    // `CASE m OF Stopped : Running, Mode#Fault : END_CASE`
    ensures fitting { broken_rules (step (case_of (reading 145 M) ((labels.Enumerated (bare 150 STOPPED) ∷ [])
        ∷ (labels.Enumerated (bare 160 RUNNING) ∷ labels.Enumerated (of_type 169 MODE FAULT) ∷ []) ∷ []) ∷ [])) ≡ [] }
    // `CASE m OF Stopped : Mode#Stopped : END_CASE`
    ensures twice { broken_rules (step (case_of (reading 145 M) ((labels.Enumerated (bare 150 STOPPED) ∷ [])
        ∷ (labels.Enumerated (of_type 160 MODE STOPPED) ∷ []) ∷ []) ∷ []))
        ≡ breaks WrongLabel 150 ∷ breaks WrongLabel 160 ∷ [] }
    // `CASE m OF Stopped : Alarm#Clear : END_CASE`: the other type's first name isn't a label of the same value
    ensures of_two_types { broken_rules (step (case_of (reading 145 M) ((labels.Enumerated (bare 150 STOPPED) ∷ [])
        ∷ (labels.Enumerated (of_type 160 ALARM CLEAR) ∷ []) ∷ []) ∷ []))
        ≡ breaks WrongType 160 ∷ [] }
    // `CASE m OF Clear : END_CASE`: the value of the other type, whatever variables there are
    ensures variable_of_the_name { broken_rules (step (case_of (reading 145 M) ((labels.Enumerated (bare 150 CLEAR) ∷ [])
        ∷ []) ∷ []))
        ≡ breaks WrongType 150 ∷ [] }
    // `CASE m OF n : END_CASE`: a variable isn't a label
    ensures variable { broken_rules (step (case_of (reading 145 M) ((labels.Enumerated (bare 150 N) ∷ []) ∷ []) ∷ []))
        ≡ breaks UnknownName 150 ∷ [] }
    // `CASE m OF Fault : END_CASE`
    ensures ambiguous { broken_rules (step (case_of (reading 145 M) ((labels.Enumerated (bare 150 FAULT) ∷ []) ∷ []) ∷ []))
        ≡ breaks WrongType 150 ∷ [] }
    // `CASE m OF 0 : END_CASE`, `CASE n OF Stopped : END_CASE`
    ensures other_sorts { broken_rules (step (case_of (reading 145 M) ((single 150 (pos 0) ∷ []) ∷ [])
        ∷ case_of (reading 165 N) ((labels.Enumerated (bare 170 STOPPED) ∷ []) ∷ []) ∷ []))
        ≡ breaks WrongType 150 ∷ breaks WrongType 170 ∷ [] }
{}

/// Declarations with these types.
pub fn declarations()
    // `m : Mode := Running`, `m : Mode := Fault`, `m : Mode := Open`, `m : Mode := Alarm#Clear`, `m : Mode := 1`
    ensures starting { broken_rules (starting_mode (constant (Enumerated (bare 100 RUNNING)))) ≡ [] }
    ensures ambiguous_start { broken_rules (starting_mode (constant (Enumerated (bare 100 FAULT))))
        ≡ breaks WrongType 100 ∷ [] }
    ensures unknown_start { broken_rules (starting_mode (constant (Enumerated (bare 100 (codes "OPEN")))))
        ≡ breaks UnknownName 100 ∷ [] }
    ensures start_of_other_type { broken_rules (starting_mode (constant (Enumerated (of_type 100 ALARM CLEAR))))
        ≡ breaks WrongType 100 ∷ [] }
    ensures number_as_start { broken_rules (starting_mode (words.start_of 100 (pos 1))) ≡ breaks WrongType 100 ∷ [] }
    // FUNCTION F : Mode VAR_INPUT m : Mode; END_VAR F := m; END_FUNCTION
    ensures function { broken_rules (types (modes ∷ []) ∷ organised (Function (Named (at 63 MODE))) (at 60 F)
        (block (Input None) (declaring (at 70 M) (named 74 MODE) ∷ []) ∷ []) (setting 90 F (reading 95 M) ∷ [])
        ∷ [])
        ≡ [] }
    // TYPE Mode : (Stopped, Stopped); END_TYPE
    ensures name_twice { broken_rules (types (defining (at 5 MODE) (enumeration (at 13 STOPPED ∷ at 22 STOPPED ∷ [])) ∷ [])
        ∷ [])
        ≡ breaks DeclaredTwice 22 ∷ [] }
{}

/// How many names a type may have, each at its number.
pub fn sizes()
    ensures rule { broken_rules (types (defining (at 1000 MODE) (enumeration (many_names 257)) ∷ []) ∷ [])
        ≡ breaks TooManyNames 256 ∷ [] }
    ensures most { surplus_name (many_names 256) ≡ [] }
    ensures too_many { surplus_name (many_names 258) ≡ 256 ∷ [] }
{}
