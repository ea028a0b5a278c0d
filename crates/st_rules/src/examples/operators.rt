//! The operands of operators, and the types of untyped expressions.

ghost use Rattle.std.specs.Prelude.{◌≡◌, ◌∷◌, [], pos, negsuc, true, codes};
ghost use Rattle.st_types.specs.declared.kind.Kind.TheVariants.{Sint};
ghost use Rattle.st_types.specs.declared.operator.UnaryOperator.TheVariants.{Negate, Not};
ghost use Rattle.st_types.specs.declared.operator.BinaryOperator.TheVariants.{Equal, NotEqual, Less, Greater};
ghost use Rattle.st_types.specs.declared.operator.BinaryOperator.TheVariants.{LessOrEqual, GreaterOrEqual, Add};
ghost use Rattle.st_types.specs.declared.operator.BinaryOperator.TheVariants.{Subtract};
ghost use Rattle.st_types.specs.declared.operator.BinaryOperator.TheVariants.{Multiply, Divide, Modulo, And, Or, Xor};
ghost use Rattle.st_types.specs.Expressions.{read, unary, binary, parenthesis};
ghost use Rattle.st_types.specs.Statements.{assign};
ghost use Rattle.st_rules.specs.declared.rule.Rule.TheVariants.{UnknownName, WrongType, OutOfRange, WrongArguments};
ghost use Rattle.st_rules.specs.ExampleWords.{broken_rules};
ghost use Rattle.st_rules.specs.ExampleWords.{setting, breaks, number, typed, bool_literal, reading, element, calling, wide};
ghost use Rattle.st_rules.specs.ExampleWords.{N, M, B};
ghost use Rattle.st_rules.specs.ExampleTexts.{joining, A, D, U, W};

/// In `PROGRAM P VAR n : INT; b : BOOL; w : WORD; a : ARRAY [1..2] OF INT; f : TON; d : TIME; u : UINT; END_VAR`: an
/// operator between two variables of one type. A refused one is reported at the first operand.
pub fn sorts()
    // d := d - d; n := n - n; w := w - w; b := b - b;
    ensures subtraction { broken_rules (wide (joining D Subtract 100 ∷ joining N Subtract 110 ∷ joining W Subtract 120
        ∷ joining B Subtract 130 ∷ [])) ≡ breaks WrongType 125 ∷ breaks WrongType 135 ∷ [] }
    // u := u + u; w := w + w; b := b + b;
    ensures addition { broken_rules (wide (joining U Add 100 ∷ joining W Add 110 ∷ joining B Add 120 ∷ []))
        ≡ breaks WrongType 115 ∷ breaks WrongType 125 ∷ [] }
    // n := n * n; w := w * w;
    ensures multiplication { broken_rules (wide (joining N Multiply 100 ∷ joining W Multiply 110 ∷ []))
        ≡ breaks WrongType 115 ∷ [] }
    // n := n / n; d := d / d; w := w / w;
    ensures division { broken_rules (wide (joining N Divide 100 ∷ joining D Divide 110 ∷ joining W Divide 120 ∷ []))
        ≡ breaks WrongType 115 ∷ breaks WrongType 125 ∷ [] }
    // n := n MOD n; w := w MOD w;
    ensures remainder { broken_rules (wide (joining N Modulo 100 ∷ joining W Modulo 110 ∷ [])) ≡ breaks WrongType 115 ∷ [] }
    // b := b AND b; w := w AND w; n := n AND n; d := d AND d;
    ensures and { broken_rules (wide (joining B And 100 ∷ joining W And 110 ∷ joining N And 120 ∷ joining D And 130 ∷ []))
        ≡ breaks WrongType 125 ∷ breaks WrongType 135 ∷ [] }
    // b := b OR b; w := w OR w; d := d OR d;
    ensures or { broken_rules (wide (joining B Or 100 ∷ joining W Or 110 ∷ joining D Or 120 ∷ []))
        ≡ breaks WrongType 125 ∷ [] }
    // b := b XOR b; w := w XOR w; n := n XOR n;
    ensures either { broken_rules (wide (joining B Xor 100 ∷ joining W Xor 110 ∷ joining N Xor 120 ∷ []))
        ≡ breaks WrongType 125 ∷ [] }
    // b := n = n; b := w <> w; b := d = d;
    ensures equality { broken_rules (wide (setting 100 B (binary Equal (reading 105 N) (reading 109 N))
        ∷ setting 110 B (binary NotEqual (reading 115 W) (reading 120 W))
        ∷ setting 130 B (binary Equal (reading 135 D) (reading 139 D)) ∷ [])) ≡ [] }
    // b := d < d; b := n > n; b := w <= w; b := u >= u;
    ensures order { broken_rules (wide (setting 100 B (binary Less (reading 105 D) (reading 109 D))
        ∷ setting 110 B (binary Greater (reading 115 N) (reading 119 N))
        ∷ setting 120 B (binary LessOrEqual (reading 125 W) (reading 130 W))
        ∷ setting 140 B (binary GreaterOrEqual (reading 145 U) (reading 150 U)) ∷ [])) ≡ [] }
    // b := b > b; b := b <= b; b := b >= b;
    ensures order_of_truths { broken_rules
        (wide (joining B Greater 100 ∷ joining B LessOrEqual 110 ∷ joining B GreaterOrEqual 120 ∷ []))
        ≡ breaks WrongType 105 ∷ breaks WrongType 115 ∷ breaks WrongType 125 ∷ [] }
    // n := -n; d := -d; w := -w; b := -b;
    ensures minus { broken_rules (wide (setting 100 N (unary Negate 105 (reading 106 N))
        ∷ setting 110 D (unary Negate 115 (reading 116 D)) ∷ setting 120 W (unary Negate 125 (reading 126 W))
        ∷ setting 130 B (unary Negate 135 (reading 136 B)) ∷ []))
        ≡ breaks WrongType 115 ∷ breaks WrongType 125 ∷ breaks WrongType 135 ∷ [] }
    // b := NOT b; d := NOT d;
    ensures not { broken_rules (wide (setting 100 B (unary Not 105 (reading 109 B))
        ∷ setting 120 D (unary Not 125 (reading 129 D)) ∷ []))
        ≡ breaks WrongType 125 ∷ [] }
    // b := n < SINT#5; b := n = b;
    ensures two_types { broken_rules (wide (setting 100 B (binary Less (reading 105 N) (typed 109 Sint (pos 5)))
        ∷ setting 120 B (binary Equal (reading 125 N) (reading 129 B)) ∷ []))
        ≡ breaks WrongType 105 ∷ breaks WrongType 125 ∷ [] }
    // n := m + n; n := n * m; b := m = n; n := -m; only the unknown name is reported
    ensures of_unknown { broken_rules (wide (setting 100 N (binary Add (reading 105 M) (reading 109 N))
        ∷ setting 120 N (binary Multiply (reading 125 N) (reading 129 M))
        ∷ setting 140 B (binary Equal (reading 145 M) (reading 149 N))
        ∷ setting 160 N (unary Negate 165 (reading 166 M)) ∷ []))
        ≡ breaks UnknownName 105 ∷ breaks UnknownName 129 ∷ breaks UnknownName 145 ∷ breaks UnknownName 166 ∷ [] }
    // b := a = a; b := n < a; n := a + n; a whole array has no value
    ensures of_arrays { broken_rules (wide (setting 100 B (binary Equal (reading 105 A) (reading 109 A))
        ∷ setting 120 B (binary Less (reading 125 N) (reading 129 A))
        ∷ setting 140 N (binary Add (reading 145 A) (reading 149 N)) ∷ []))
        ≡ breaks WrongType 105 ∷ breaks WrongType 125 ∷ breaks WrongType 145 ∷ [] }
    // b := (n) + n; b := -n; b := ABS(n): a wrong value is reported at its first byte
    ensures first_byte { broken_rules (wide (setting 100 B (binary Add (parenthesis 105 (reading 106 N)) (reading 111 N))
        ∷ setting 120 B (unary Negate 125 (reading 126 N)) ∷ setting 130 B (calling 135 (codes "ABS") (reading 139 N
        ∷ []))
        ∷ [])) ≡ breaks WrongType 105 ∷ breaks WrongType 125 ∷ breaks WrongType 135 ∷ [] }
{}

/// Untyped expressions in the same program.
pub fn untyped()
    // n := -(5); n := -(40000);
    ensures minus { broken_rules (wide (setting 100 N (unary Negate 105 (parenthesis 106 (number 107 (pos 5))))
        ∷ setting 110 N (unary Negate 115 (parenthesis 116 (number 117 (pos 40000)))) ∷ []))
        ≡ breaks OutOfRange 117 ∷ [] }
    // u := -(5); w := -(5): they take the type, which has no sign
    ensures minus_without_sign { broken_rules (wide (setting 100 U (unary Negate 105 (parenthesis 106 (number 107 (pos 5))))
        ∷ setting 110 W (unary Negate 115 (parenthesis 116 (number 117 (pos 5)))) ∷ []))
        ≡ breaks WrongType 105 ∷ breaks WrongType 115 ∷ [] }
    // n := 1 = 40000: a comparison expects nothing, and is a BOOL
    ensures compared { broken_rules (wide (setting 100 N (binary Equal (number 105 (pos 1)) (number 109 (pos 40000))) ∷ []))
        ≡ breaks WrongType 105 ∷ [] }
    // b := 1 = 40000;
    ensures compared_for_a_truth { broken_rules
        (wide (setting 100 B (binary Equal (number 105 (pos 1)) (number 109 (pos 40000))) ∷ [])) ≡ [] }
    // b := n < 40000; b := 40000 < n; b := -1 = u;
    ensures beside_a_type { broken_rules (wide (setting 100 B (binary Less (reading 105 N) (number 109 (pos 40000)))
        ∷ setting 120 B (binary Less (number 125 (pos 40000)) (reading 133 N))
        ∷ setting 140 B (binary Equal (number 145 (negsuc 0)) (reading 150 U)) ∷ []))
        ≡ breaks OutOfRange 109 ∷ breaks OutOfRange 125 ∷ breaks OutOfRange 145 ∷ [] }
    // w := NOT 65535; w := NOT 65536; n := NOT 5;
    ensures turned { broken_rules (wide (setting 100 W (unary Not 105 (number 109 (pos 65535)))
        ∷ setting 120 W (unary Not 125 (number 129 (pos 65536)))
        ∷ setting 140 N (unary Not 145 (number 149 (pos 5))) ∷ []))
        ≡ breaks OutOfRange 129 ∷ breaks WrongType 145 ∷ [] }
    // n := 1 + 40000; w := 1 OR 65536; n := (40000);
    ensures joined { broken_rules (wide (setting 100 N (binary Add (number 105 (pos 1)) (number 109 (pos 40000)))
        ∷ setting 120 W (binary Or (number 125 (pos 1)) (number 130 (pos 65536)))
        ∷ setting 140 N (parenthesis 145 (number 146 (pos 40000))) ∷ []))
        ≡ breaks OutOfRange 109 ∷ breaks OutOfRange 130 ∷ breaks OutOfRange 146 ∷ [] }
    // d := 1 + 2: a LINT
    ensures of_no_number { broken_rules (wide (setting 100 D (binary Add (number 105 (pos 1)) (number 109 (pos 2))) ∷ []))
        ≡ breaks WrongType 105 ∷ [] }
    // b := 1 = (n = 2): a LINT beside a BOOL
    ensures beside_a_truth { broken_rules (wide (setting 100 B (binary Equal (number 105 (pos 1))
        (parenthesis 109 (binary Equal (reading 110 N) (number 114 (pos 2))))) ∷ [])) ≡ breaks WrongType 105 ∷ [] }
    // n := ABS(40000); b := ABS(40000) = 3000000000: the call is a LINT
    ensures absolute { broken_rules (wide (setting 100 N (calling 105 (codes "ABS") (number 109 (pos 40000) ∷ []))
        ∷ setting 120 B (binary Equal (calling 125 (codes "ABS") (number 129 (pos 40000)
        ∷ [])) (number 140 (pos 3000000000)))
        ∷ [])) ≡ breaks WrongType 105 ∷ [] }
    // n := MAX(n, 40000); n := LIMIT(1, n, 40000); n := SEL(b, 40000, n); n := SEL(b, 1, 2);
    ensures common_type { broken_rules (wide (setting 100 N (calling 105 (codes "MAX") (reading 109 N
        ∷ number 112 (pos 40000) ∷ []))
        ∷ setting 120 N (calling 125 (codes "LIMIT") (number 131 (pos 1) ∷ reading 134 N ∷ number 137 (pos 40000) ∷ []))
        ∷ setting 150 N (calling 155 (codes "SEL") (reading 159 B ∷ number 162 (pos 40000) ∷ reading 169 N ∷ []))
        ∷ setting 180 N (calling 185 (codes "SEL") (reading 189 B ∷ number 192 (pos 1) ∷ number 195 (pos 2) ∷ []))
        ∷ []))
        ≡ breaks OutOfRange 112 ∷ breaks OutOfRange 137 ∷ breaks OutOfRange 162 ∷ breaks WrongType 185 ∷ [] }
    // n := MIN(n, u); n := LIMIT(n, n, u); b := SEL(b, b, n);
    ensures no_common_type { broken_rules (wide (setting 100 N (calling 105 (codes "MIN") (reading 109 N ∷ reading 112 U
        ∷ []))
        ∷ setting 120 N (calling 125 (codes "LIMIT") (reading 131 N ∷ reading 134 N ∷ reading 137 U ∷ []))
        ∷ setting 150 B (calling 155 (codes "SEL") (reading 159 B ∷ reading 162 B ∷ reading 165 N ∷ [])) ∷ []))
        ≡ breaks WrongType 112 ∷ breaks WrongType 137 ∷ breaks WrongType 165 ∷ [] }
    // d := MIN(d, d); w := LIMIT(w, w, w): bits have no minimum
    ensures least { broken_rules (wide (setting 100 D (calling 105 (codes "MIN") (reading 109 D ∷ reading 112 D ∷ []))
        ∷ setting 120 W (calling 125 (codes "LIMIT") (reading 131 W ∷ reading 134 W ∷ reading 137 W ∷ [])) ∷ []))
        ≡ breaks WrongType 131 ∷ breaks WrongType 134 ∷ breaks WrongType 137 ∷ [] }
    // w := SHR(w, u); w := ROL(w, d); w := ROR(w, -1); w := SHL(n, 1);
    ensures shifts { broken_rules (wide (setting 100 W (calling 105 (codes "SHR") (reading 109 W ∷ reading 112 U ∷ []))
        ∷ setting 120 W (calling 125 (codes "ROL") (reading 129 W ∷ reading 132 D ∷ []))
        ∷ setting 140 W (calling 145 (codes "ROR") (reading 149 W ∷ number 152 (negsuc 0) ∷ []))
        ∷ setting 160 W (calling 165 (codes "SHL") (reading 169 N ∷ number 172 (pos 1) ∷ [])) ∷ []))
        ≡ breaks WrongType 132 ∷ breaks WrongType 165 ∷ breaks WrongType 169 ∷ [] }
    // n := BOOL_TO_INT(b); n := BOOL_TO_INT(1); n := TIME_TO_INT(d);
    ensures conversions { broken_rules (wide (setting 100 N (calling 105 (codes "BOOL_TO_INT") (reading 117 B ∷ []))
        ∷ setting 120 N (calling 125 (codes "BOOL_TO_INT") (number 137 (pos 1) ∷ []))
        ∷ setting 140 N (calling 145 (codes "TIME_TO_INT") (reading 157 D ∷ [])) ∷ []))
        ≡ breaks WrongType 137 ∷ breaks UnknownName 145 ∷ [] }
    // n := a[9223372036854775807]; n := a[9223372036854775808]; n := a[1 = 1]: within LINT
    ensures subscripts { broken_rules (wide (setting 100 N (read (element 105 A (number 107 (pos 9223372036854775807))))
        ∷ setting 130 N (read (element 135 A (number 137 (pos 9223372036854775808))))
        ∷ setting 160 N (read (element 165 A (binary Equal (number 167 (pos 1)) (number 171 (pos 1))))) ∷ []))
        ≡ breaks OutOfRange 137 ∷ breaks WrongType 167 ∷ [] }
    // n := MAX(n); n := UINT_TO_INT(u, u);
    ensures numbers_of_arguments { broken_rules (wide (setting 100 N (calling 105 (codes "MAX") (reading 109 N ∷ []))
        ∷ setting 120 N (calling 125 (codes "UINT_TO_INT") (reading 137 U ∷ reading 140 U ∷ [])) ∷ []))
        ≡ breaks WrongArguments 105 ∷ breaks WrongArguments 125 ∷ [] }
{}
