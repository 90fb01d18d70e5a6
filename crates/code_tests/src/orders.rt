use crate::program_ends::{Row, each_ends};
use solo_base::ProgResult::Terminated;

// T(N) prints N and gives it, in two ticks; B(N) prints N and says whether it is over 0.
const BOTH_SIDES_OF_EACH_OPERATOR: [Row; 8] = [
    (
        "FUNCTION T(N: INTEGER): INTEGER;\nBEGIN WRITEINT(N); T := N END;\nBEGIN WRITEINT(T(1) + T(2)) END.",
        Terminated,
        3,
        5,
        "123/",
    ),
    (
        "FUNCTION T(N: INTEGER): INTEGER;\nBEGIN WRITEINT(N); T := N END;\nBEGIN WRITEINT(T(1) - T(2)) END.",
        Terminated,
        3,
        5,
        "12-1/",
    ),
    (
        "FUNCTION T(N: INTEGER): INTEGER;\nBEGIN WRITEINT(N); T := N END;\nBEGIN WRITEINT(T(2) * T(3)) END.",
        Terminated,
        3,
        5,
        "236/",
    ),
    (
        "FUNCTION T(N: INTEGER): INTEGER;\nBEGIN WRITEINT(N); T := N END;\nBEGIN WRITEINT(T(7) DIV T(2)) END.",
        Terminated,
        3,
        5,
        "723/",
    ),
    (
        "FUNCTION T(N: INTEGER): INTEGER;\nBEGIN WRITEINT(N); T := N END;\nBEGIN WRITEINT(T(7) MOD T(4)) END.",
        Terminated,
        3,
        5,
        "743/",
    ),
    (
        "FUNCTION T(N: INTEGER): INTEGER;\nBEGIN WRITEINT(N); T := N END;\nBEGIN WRITEINT(T(1) + T(2) * T(3) + T(4)) END.",
        Terminated,
        3,
        9,
        "123411/",
    ),
    (
        "FUNCTION T(N: INTEGER): INTEGER;\nBEGIN WRITEINT(N); T := N END;\nBEGIN WRITEINT(-T(1) + (T(2) - T(3))) END.",
        Terminated,
        3,
        7,
        "123-2/",
    ),
    (
        "FUNCTION T(N: INTEGER): INTEGER;\nBEGIN WRITEINT(N); T := N END;\nBEGIN WRITEINT(ABS(T(1) - T(3))) END.",
        Terminated,
        3,
        5,
        "132/",
    ),
];

#[test]
fn both_sides_of_each_operator(rt: HostRuntime) {
    each_ends(&rt, rt.alloc(), &BOTH_SIDES_OF_EACH_OPERATOR);
}

const BOTH_SIDES_OF_EACH_RELATION: [Row; 6] = [
    (
        "FUNCTION T(N: INTEGER): INTEGER;\nBEGIN WRITEINT(N); T := N END;\nBEGIN IF T(1) < T(2) THEN WRITEINT(5) ELSE WRITEINT(6) END.",
        Terminated,
        3,
        6,
        "125/",
    ),
    (
        "FUNCTION T(N: INTEGER): INTEGER;\nBEGIN WRITEINT(N); T := N END;\nBEGIN IF T(1) > T(2) THEN WRITEINT(5) ELSE WRITEINT(6) END.",
        Terminated,
        3,
        6,
        "126/",
    ),
    (
        "FUNCTION T(N: INTEGER): INTEGER;\nBEGIN WRITEINT(N); T := N END;\nBEGIN IF T(1) = T(2) THEN WRITEINT(5) ELSE WRITEINT(6) END.",
        Terminated,
        3,
        6,
        "126/",
    ),
    (
        "FUNCTION T(N: INTEGER): INTEGER;\nBEGIN WRITEINT(N); T := N END;\nBEGIN IF T(1) <> T(2) THEN WRITEINT(5) ELSE WRITEINT(6) END.",
        Terminated,
        3,
        6,
        "125/",
    ),
    (
        "FUNCTION T(N: INTEGER): INTEGER;\nBEGIN WRITEINT(N); T := N END;\nBEGIN IF T(2) <= T(2) THEN WRITEINT(5) ELSE WRITEINT(6) END.",
        Terminated,
        3,
        6,
        "225/",
    ),
    (
        "FUNCTION T(N: INTEGER): INTEGER;\nBEGIN WRITEINT(N); T := N END;\nBEGIN IF T(1) >= T(2) THEN WRITEINT(5) ELSE WRITEINT(6) END.",
        Terminated,
        3,
        6,
        "126/",
    ),
];

#[test]
fn both_sides_of_each_relation(rt: HostRuntime) {
    each_ends(&rt, rt.alloc(), &BOTH_SIDES_OF_EACH_RELATION);
}

const NO_OPERATOR_STOPS_EARLY: [Row; 4] = [
    (
        "FUNCTION B(N: INTEGER): BOOLEAN;\nBEGIN WRITEINT(N); B := N > 0 END;\nBEGIN IF B(0) & B(1) THEN WRITEINT(5) ELSE WRITEINT(6) END.",
        Terminated,
        3,
        6,
        "016/",
    ),
    (
        "FUNCTION B(N: INTEGER): BOOLEAN;\nBEGIN WRITEINT(N); B := N > 0 END;\nBEGIN IF B(1) OR B(0) THEN WRITEINT(5) ELSE WRITEINT(6) END.",
        Terminated,
        3,
        6,
        "105/",
    ),
    (
        "FUNCTION B(N: INTEGER): BOOLEAN;\nBEGIN WRITEINT(N); B := N > 0 END;\nBEGIN IF NOT B(0) & B(2) THEN WRITEINT(5) ELSE WRITEINT(6) END.",
        Terminated,
        3,
        6,
        "025/",
    ),
    (
        "FUNCTION B(N: INTEGER): BOOLEAN;\nBEGIN WRITEINT(N); B := N > 0 END;\nBEGIN IF B(0) & B(1) OR B(2) THEN WRITEINT(5) ELSE WRITEINT(6) END.",
        Terminated,
        3,
        8,
        "0125/",
    ),
];

#[test]
fn no_operator_stops_early(rt: HostRuntime) {
    each_ends(&rt, rt.alloc(), &NO_OPERATOR_STOPS_EARLY);
}

const INDEXES_ARGUMENTS_AND_BOUNDS_IN_ORDER: [Row; 6] = [
    (
        "VAR A: ARRAY (. 1 .. 3 .) OF INTEGER;\nFUNCTION T(N: INTEGER): INTEGER;\nBEGIN WRITEINT(N); T := N END;\nBEGIN A(. T(2) .) := T(3); WRITEINT(A(. 2 .)) END.",
        Terminated,
        4,
        6,
        "233/",
    ),
    (
        "FUNCTION T(N: INTEGER): INTEGER;\nBEGIN WRITEINT(N); T := N END;\nPROCEDURE P(X, Y, Z: INTEGER);\nBEGIN WRITEINT(X - Y - Z) END;\nBEGIN P(T(9), T(2), T(3)) END.",
        Terminated,
        5,
        8,
        "9234/",
    ),
    (
        "FUNCTION T(N: INTEGER): INTEGER;\nBEGIN WRITEINT(N); T := N END;\nBEGIN WRITEINT(T(T(1) + T(2))) END.",
        Terminated,
        3,
        7,
        "1233/",
    ),
    (
        "VAR I: INTEGER;\nFUNCTION T(N: INTEGER): INTEGER;\nBEGIN WRITEINT(N); T := N END;\nBEGIN FOR I := T(1) TO T(3) DO WRITEINT(I) END.",
        Terminated,
        4,
        11,
        "13123/",
    ),
    (
        "FUNCTION T(N: INTEGER): INTEGER;\nBEGIN WRITEINT(N); T := N END;\nBEGIN CASE T(2) OF 1: ; 2: WRITEINT(7) END END.",
        Terminated,
        3,
        4,
        "27/",
    ),
    (
        "VAR I: INTEGER;\nFUNCTION T(N: INTEGER): INTEGER;\nBEGIN WRITEINT(N); T := N END;\nBEGIN WHILE T(I) < 2 DO I := I + 1 END.",
        Terminated,
        4,
        12,
        "012/",
    ),
];

#[test]
fn indexes_arguments_and_bounds_in_order(rt: HostRuntime) {
    each_ends(&rt, rt.alloc(), &INDEXES_ARGUMENTS_AND_BOUNDS_IN_ORDER);
}

// F sets G to 10 and gives 100.
const A_VALUE_IS_TAKEN_WHERE_ITS_NAME_STANDS: [Row; 2] = [
    (
        "VAR G: INTEGER;\nFUNCTION F: INTEGER;\nBEGIN G := 10; F := 100 END;\nBEGIN G := 1; WRITEINT(G + F) END.",
        Terminated,
        4,
        4,
        "101/",
    ),
    (
        "VAR G: INTEGER;\nFUNCTION F: INTEGER;\nBEGIN G := 10; F := 100 END;\nBEGIN G := 1; WRITEINT(F + G) END.",
        Terminated,
        4,
        4,
        "110/",
    ),
];

#[test]
fn a_value_is_taken_where_its_name_stands(rt: HostRuntime) {
    each_ends(&rt, rt.alloc(), &A_VALUE_IS_TAKEN_WHERE_ITS_NAME_STANDS);
}
