use crate::program_ends::{Row, each_ends, each_ends_with};
use solo_base::ProgResult::{StackLimit, Terminated, TimeLimit};

#[test]
fn the_limit_is_passed_at_each_kind_of_tick(rt: HostRuntime) {
    let endless = "BEGIN\nWHILE TRUE DO\nWRITE('A') END.";
    let repeating = "BEGIN REPEAT\nWRITE('A')\nUNTIL FALSE END.";
    let counting = "VAR I: INTEGER;\nBEGIN FOR I := 1 TO 3 DO\nWRITEINT(I) END.";
    let rows: [(&str, u32, Row); 14] = [
        ("", 0, ("BEGIN WRITE('A') END.", TimeLimit, 1, 0, "")),
        ("", 0, ("BEGIN END.", Terminated, 0, 0, "")),
        ("", 10, ("BEGIN\nWHILE TRUE DO END.", TimeLimit, 2, 10, "")),
        ("", 1, (endless, TimeLimit, 2, 1, "")),
        ("", 2, (endless, TimeLimit, 3, 2, "")),
        ("", 3, (endless, TimeLimit, 2, 3, "A/")),
        ("", 4, (endless, TimeLimit, 3, 4, "A/")),
        ("", 2, (repeating, TimeLimit, 1, 2, "A/")),
        ("", 3, (repeating, TimeLimit, 2, 3, "A/")),
        ("", 1, (counting, TimeLimit, 2, 1, "")),
        ("", 2, (counting, TimeLimit, 3, 2, "")),
        ("", 5, (counting, TimeLimit, 2, 5, "12/")),
        ("", 6, (counting, TimeLimit, 3, 6, "12/")),
        ("", 7, (counting, Terminated, 3, 7, "123/")),
    ];
    each_ends_with(&rt, rt.alloc(), &rows);
}

const SIXTY_FOUR_ACTIVATIONS: [Row; 3] = [
    (
        "PROCEDURE P(N: INTEGER);\nBEGIN IF N > 1 THEN\nP(N - 1) END;\nBEGIN P(63);\nWRITEINT(1);\nP(64) END.",
        StackLimit,
        3,
        254,
        "1/",
    ),
    (
        "FUNCTION F(N: INTEGER): INTEGER;\nBEGIN IF N > 1 THEN F := F(N - 1) + 1 ELSE F := 1 END;\nBEGIN WRITEINT(F(63));\nWRITEINT(F(64)) END.",
        StackLimit,
        2,
        254,
        "63/",
    ),
    (
        "FUNCTION T(N: INTEGER): INTEGER;\nBEGIN WRITEINT(N);\nT := N END;\nPROCEDURE P(N: INTEGER);\nBEGIN P(N + 1 + 0 * T(7)) END;\nBEGIN P(T(5)) END.",
        StackLimit,
        5,
        190,
        "577777777777777777777777777777777777777777777777777777777777777/",
    ),
];

#[test]
fn sixty_four_activations(rt: HostRuntime) {
    each_ends(&rt, rt.alloc(), &SIXTY_FOUR_ACTIVATIONS);
}
