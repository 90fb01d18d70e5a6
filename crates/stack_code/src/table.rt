ghost use Rattle.std.specs.Prelude.{◌≡◌};
ghost use Rattle.stack_code.specs.Table.{row, op_at, name_of};

/// An instruction's operation: a row of the machine's table.
#[derive(Clone, Copy, Debug, PartialEq, Eq)]
pub enum Op {
    Push,
    LoadG,
    LoadL,
    StoreG,
    StoreL,
    LoadGX,
    LoadLX,
    StoreGX,
    StoreLX,
    Index,
    Add,
    Sub,
    Mul,
    Div,
    Mod,
    Neg,
    Abs,
    Not,
    And,
    Or,
    Eq,
    Ne,
    Lt,
    Gt,
    Le,
    Ge,
    Chr,
    Jump,
    JumpF,
    Tick,
    Call,
    Return,
    Sys,
    SysG,
    SysL,
    Halt,
    Succ,
    Pred,
    RefG,
    RefL,
    LoadR,
    StoreR,
}

/// What the table says of an operation.
#[derive(Clone, Copy, Debug)]
pub struct Row {
    pub number: u8,
    pub uses_a: bool,
    pub uses_b: bool,
    pub pops: u8,
    pub pushes: u8,
}

/// The table: number, variant, name, whether the operands a and b are used, and how many words are
/// popped and pushed (CALL and SYS take theirs from the routine and from the row of the interface).
macro_rules! table {
    ($use_row:ident $value:ident) => {
        $use_row! { $value
            0 Push "PUSH" (a) 0 1;
            1 LoadG "LOADG" (a) 0 1;
            2 LoadL "LOADL" (a) 0 1;
            3 StoreG "STOREG" (a) 1 0;
            4 StoreL "STOREL" (a) 1 0;
            5 LoadGX "LOADGX" (a b) 1 1;
            6 LoadLX "LOADLX" (a b) 1 1;
            7 StoreGX "STOREGX" (a b) 2 0;
            8 StoreLX "STORELX" (a b) 2 0;
            9 Index "INDEX" (a b) 1 1;
            10 Add "ADD" () 2 1;
            11 Sub "SUB" () 2 1;
            12 Mul "MUL" () 2 1;
            13 Div "DIV" () 2 1;
            14 Mod "MOD" () 2 1;
            15 Neg "NEG" () 1 1;
            16 Abs "ABS" () 1 1;
            17 Not "NOT" () 1 1;
            18 And "AND" () 2 1;
            19 Or "OR" () 2 1;
            20 Eq "EQ" () 2 1;
            21 Ne "NE" () 2 1;
            22 Lt "LT" () 2 1;
            23 Gt "GT" () 2 1;
            24 Le "LE" () 2 1;
            25 Ge "GE" () 2 1;
            26 Chr "CHR" () 1 1;
            27 Jump "JUMP" (a) 0 0;
            28 JumpF "JUMPF" (a) 1 0;
            29 Tick "TICK" (a b) 0 0;
            30 Call "CALL" (a) 0 0;
            31 Return "RETURN" () 0 0;
            32 Sys "SYS" (a) 0 0;
            33 SysG "SYSG" (a b) 0 0;
            34 SysL "SYSL" (a b) 0 0;
            35 Halt "HALT" () 0 0;
            36 Succ "SUCC" () 1 1;
            37 Pred "PRED" () 1 1;
            38 RefG "REFG" (a) 0 2;
            39 RefL "REFL" (a) 0 2;
            40 LoadR "LOADR" (a) 0 1;
            41 StoreR "STORER" (a) 1 0;
        }
    };
}

macro_rules! row_of {
    ($op:ident $($number:literal $variant:ident $name:literal ($($used:ident)*) $pops:literal $pushes:literal;)*) => {
        match $op {
            $(Op::$variant => Row {
                number: $number,
                uses_a: used!(a $($used)*),
                uses_b: used!(b $($used)*),
                pops: $pops,
                pushes: $pushes,
            },)*
        }
    };
}

macro_rules! used {
    (a a $($rest:ident)*) => { true };
    (b a b) => { true };
    ($operand:ident $($rest:ident)*) => { false };
}

macro_rules! name_of {
    ($op:ident $($number:literal $variant:ident $name:literal ($($used:ident)*) $pops:literal $pushes:literal;)*) => {
        match $op {
            $(Op::$variant => $name,)*
        }
    };
}

macro_rules! op_at {
    ($at:ident $($number:literal $variant:ident $name:literal ($($used:ident)*) $pops:literal $pushes:literal;)*) => {
        match $at {
            $($number => Some(Op::$variant),)*
            _ => None,
        }
    };
}

impl Op {
    /// The operation's row of the table.
    pub fn row(self) -> Row
        ensures { result ≡ row self }
    {
        table!(row_of self)
    }

    /// The operation's name.
    pub fn name(self) -> &'static str
        ensures { result.now ≡ name_of self }
    {
        table!(name_of self)
    }

    /// The operation with this number, or `None` behind the last.
    pub fn at(number: u8) -> Option<Op>
        ensures { result ≡ op_at number }
    {
        table!(op_at number)
    }
}
