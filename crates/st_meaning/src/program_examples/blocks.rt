//! Worked examples of standard function blocks, each proved by computation.

ghost use Rattle.std.specs.Prelude.{◌≡◌, ◌∷◌, [], pos, negsuc, true, false};
ghost use Rattle.st_meaning.specs.StandardBlocks.{TON, TOF, TP, R_TRIG, F_TRIG, CTU, CTD, CTUD};
ghost use Rattle.st_meaning.specs.ProgramExamples.{outputs_of, fresh_members, timed, q_et, bool, int, time};

/// Timers of 100 ms at 0, 50, 100 and 150 ms, and of 0 ms.
pub fn timers()
    ensures ton { timed TON (pos 100) ((0, true) ∷ (50, true) ∷ (100, true) ∷ (150, true) ∷ []) ≡ q_et false 0
        ∷ q_et false 50 ∷ q_et true 100 ∷ q_et true 100 ∷ [] }
    ensures tof { timed TOF (pos 100) ((0, true) ∷ (50, false) ∷ (100, false) ∷ (150, false) ∷ []) ≡ q_et true 0
        ∷ q_et true 0 ∷ q_et true 50 ∷ q_et false 100 ∷ [] }
    ensures tp { timed TP (pos 100) ((0, true) ∷ (50, false) ∷ (100, false) ∷ (150, false) ∷ []) ≡ q_et true 0
        ∷ q_et true 50 ∷ q_et false 0 ∷ q_et false 0 ∷ [] }
    ensures ton_of_0 { timed TON (pos 0) ((0, true) ∷ []) ≡ q_et true 0 ∷ [] }
    ensures tof_of_0 { timed TOF (pos 0) ((0, true) ∷ []) ≡ q_et true 0 ∷ [] }
    // IN falls at 70 ms and rises at 80 ms.
    ensures ton_that_begins_again { timed TON (pos 100)
        ((0, true) ∷ (60, true) ∷ (70, false) ∷ (80, true) ∷ (180, true) ∷ []) ≡ q_et false 0 ∷ q_et false 60
        ∷ q_et false 0 ∷ q_et false 0 ∷ q_et true 100 ∷ [] }
    ensures ton_below_0 { timed TON (negsuc 4) ((0, true) ∷ []) ≡ q_et true 0 ∷ [] }
    // The PT of a pulse is 100 ms at its begin, and then 200 ms.
    ensures tp_that_grows { outputs_of TP 2 2 (
        (0, bool true ∷ time (pos 100) ∷ [])
        ∷ (50, bool false ∷ time (pos 200) ∷ [])
        ∷ (150, bool false ∷ time (pos 200) ∷ [])
        ∷ (200, bool false ∷ time (pos 200) ∷ [])
        ∷ []) (fresh_members TP) ≡ q_et true 0 ∷ q_et true 50 ∷ q_et true 150 ∷ q_et false 0 ∷ [] }
    ensures tp_of_0 { timed TP (pos 0) ((0, true) ∷ []) ≡ q_et false 0 ∷ [] }
{}

/// Edges at their first calls, and the limits of counters.
pub fn edges_and_counters()
    // F_TRIG twice with CLK FALSE
    ensures f_trig { outputs_of F_TRIG 1 1 ((0, bool false ∷ []) ∷ (10, bool false ∷ []) ∷ []) (fresh_members F_TRIG)
        ≡ (bool true ∷ []) ∷ (bool false ∷ []) ∷ [] }
    // R_TRIG twice with CLK TRUE
    ensures r_trig { outputs_of R_TRIG 1 1 ((0, bool true ∷ []) ∷ (10, bool true ∷ []) ∷ []) (fresh_members R_TRIG)
        ≡ (bool true ∷ []) ∷ (bool false ∷ []) ∷ [] }
    // CTD with PV 2: LD, CD, neither, CD
    ensures ctd { outputs_of CTD 3 2 (
        (0, bool false ∷ bool true ∷ int (pos 2) ∷ [])
        ∷ (10, bool true ∷ bool false ∷ int (pos 2) ∷ [])
        ∷ (20, bool false ∷ bool false ∷ int (pos 2) ∷ [])
        ∷ (30, bool true ∷ bool false ∷ int (pos 2) ∷ [])
        ∷ []) (fresh_members CTD)
        ≡ (bool false ∷ int (pos 2) ∷ [])
        ∷ (bool false ∷ int (pos 1) ∷ [])
        ∷ (bool false ∷ int (pos 1) ∷ [])
        ∷ (bool true ∷ int (pos 0) ∷ [])
        ∷ [] }
    // CTU with PV -1, which its 0 has reached
    ensures ctu_below_0 { outputs_of CTU 3 2 ((0, bool false ∷ bool false ∷ int (negsuc 0) ∷ []) ∷ [])
        (fresh_members CTU) ≡ (bool true ∷ int (pos 0) ∷ []) ∷ [] }
    // CTU with PV 1: CU and R, then CU alone
    ensures ctu { outputs_of CTU 3 2
        ((0, bool true ∷ bool true ∷ int (pos 1) ∷ []) ∷ (10, bool true ∷ bool false ∷ int (pos 1) ∷ []) ∷ [])
        (fresh_members CTU) ≡ (bool false ∷ int (pos 0) ∷ []) ∷ (bool false ∷ int (pos 0) ∷ []) ∷ [] }
    // CTUD with PV 3: CU and CD, neither, CU
    ensures ctud { outputs_of CTUD 5 3 (
        (0, bool true ∷ bool true ∷ bool false ∷ bool false ∷ int (pos 3) ∷ [])
        ∷ (10, bool false ∷ bool false ∷ bool false ∷ bool false ∷ int (pos 3) ∷ [])
        ∷ (20, bool true ∷ bool false ∷ bool false ∷ bool false ∷ int (pos 3) ∷ [])
        ∷ []) (fresh_members CTUD)
        ≡ (bool false ∷ bool true ∷ int (pos 0) ∷ [])
        ∷ (bool false ∷ bool true ∷ int (pos 0) ∷ [])
        ∷ (bool false ∷ bool false ∷ int (pos 1) ∷ [])
        ∷ [] }
{}
