// The table of built codes, in the newsletter's order, and what is found in it.
ghost use Rattle.std.specs.Prelude.{◌≡◌, ◌<◌, ◌≤◌, Some};
ghost use Rattle.rules.specs.Codes.{codes, lookup, name_in};
ghost use Rattle.codes.specs.Rows.{code_at, name_at, row_in, row_built};

use rules::Address::{OfA, OfB, OfC};
use rules::Changing::{AddTo, SetTo, SubFrom};
use rules::Class::{
    BlockIn, BlockMoved, BlockOut, Changed, Compared, Free, Linked, OneNumber, OneWord, TwoNumbers,
};
use rules::Going::{CondStop, Noop, Tr, TrExp, TrSgn, TrSubr, UncStop};
use rules::Operation::{Change, Compare, Go, Loop, Move, MoveBlock, Pch, Read, Reckon, Trace};
use rules::Reckoning::{Abs, Add, Div, Mpy, Ngmpy, Sqrt, Sub};
use rules::Tracing::{StTrEras, StartTr, StopTr};
use rules::{Built, Class, Operation};

// A row: a code, its operation, the class of its operands, and its name.
#[derive(Clone, Copy)]
struct Row(u64, Operation, Class, [u8; 10]);

const ADD: Row = Row(1_000, Reckon(Add), TwoNumbers, *b"ADD       ");

const SUB: Row = Row(2_000, Reckon(Sub), TwoNumbers, *b"SUB       ");

const MPY: Row = Row(3_000, Reckon(Mpy), TwoNumbers, *b"MPY       ");

const DIV: Row = Row(4_000, Reckon(Div), TwoNumbers, *b"DIV       ");

const NGMPY: Row = Row(5_000, Reckon(Ngmpy), TwoNumbers, *b"NGMPY     ");

const TR_A: Row = Row(6_000, Compare(OfA), Compared, *b"TR A      ");

const TR_B: Row = Row(7_000, Compare(OfB), Compared, *b"TR B      ");

const TR_C: Row = Row(8_000, Compare(OfC), Compared, *b"TR C      ");

const MOVE_000: Row = Row(9_000, Move, OneWord, *b"MOVE      ");

const MOVE: Row = Row(9_001, MoveBlock, BlockMoved, *b"MOVE      ");

const UNC_STOP: Row = Row(0, Go(UncStop), Free, *b"UNC STOP  ");

const COND_STOP: Row = Row(200, Go(CondStop), Free, *b"COND STOP ");

const TR_SGN: Row = Row(201, Go(TrSgn), Free, *b"TR SGN    ");

const TR_EXP: Row = Row(202, Go(TrExp), Free, *b"TR EXP    ");

const TR: Row = Row(203, Go(Tr), Free, *b"TR        ");

const TR_SUBR: Row = Row(204, Go(TrSubr), Linked, *b"TR SUBR   ");

const LOOP_A: Row = Row(100, Loop(true, false, false), Free, *b"LOOP A    ");

const LOOP_B: Row = Row(10, Loop(false, true, false), Free, *b"LOOP B    ");

const LOOP_C: Row = Row(1, Loop(false, false, true), Free, *b"LOOP C    ");

const LOOP_AB: Row = Row(110, Loop(true, true, false), Free, *b"LOOP AB   ");

const LOOP_AC: Row = Row(101, Loop(true, false, true), Free, *b"LOOP AC   ");

const LOOP_BC: Row = Row(11, Loop(false, true, true), Free, *b"LOOP BC   ");

const LOOP_ABC: Row = Row(111, Loop(true, true, true), Free, *b"LOOP ABC  ");

const SET_A: Row = Row(500, Change(SetTo, OfA), Changed, *b"SET A     ");

const SET_B: Row = Row(50, Change(SetTo, OfB), Changed, *b"SET B     ");

const SET_C: Row = Row(5, Change(SetTo, OfC), Changed, *b"SET C     ");

const ADD_A: Row = Row(600, Change(AddTo, OfA), Changed, *b"ADD A     ");

const ADD_B: Row = Row(60, Change(AddTo, OfB), Changed, *b"ADD B     ");

const ADD_C: Row = Row(6, Change(AddTo, OfC), Changed, *b"ADD C     ");

const SUB_A: Row = Row(700, Change(SubFrom, OfA), Changed, *b"SUB A     ");

const SUB_B: Row = Row(70, Change(SubFrom, OfB), Changed, *b"SUB B     ");

const SUB_C: Row = Row(7, Change(SubFrom, OfC), Changed, *b"SUB C     ");

const SQRT: Row = Row(300, Reckon(Sqrt), OneNumber, *b"SQRT      ");

const ABS: Row = Row(350, Reckon(Abs), OneNumber, *b"ABS       ");

const READ: Row = Row(400, Read, BlockIn, *b"READ      ");

const PCH: Row = Row(410, Pch, BlockOut, *b"PCH       ");

const START_TR: Row = Row(450, Trace(StartTr), Free, *b"START TR  ");

const STOP_TR: Row = Row(451, Trace(StopTr), Free, *b"STOP TR   ");

const ST_TR_ERAS: Row = Row(452, Trace(StTrEras), Free, *b"ST TR ERAS");

const NOOP: Row = Row(454, Go(Noop), Free, *b"NOOP      ");

// The row with this number, counted from 0: the table. The rows are named here and stand in no array. As one static array, looked up by `get`
// and `find`, it was proved, and missed the bar of bench/run: transfers took 108 instructions an order, 1.27 times plain C's.
fn row_at(i: usize) -> Row
    requires { i < 40 }
    ensures { (result.0 ≡ code_at i codes) × (Some (result.1, result.2) ≡ row_built i codes) × (result.3 ≡ name_at i codes) }
{
    match i {
        0 => ADD,
        1 => SUB,
        2 => MPY,
        3 => DIV,
        4 => NGMPY,
        5 => TR_A,
        6 => TR_B,
        7 => TR_C,
        8 => MOVE_000,
        9 => MOVE,
        10 => UNC_STOP,
        11 => COND_STOP,
        12 => TR_SGN,
        13 => TR_EXP,
        14 => TR,
        15 => TR_SUBR,
        16 => LOOP_A,
        17 => LOOP_B,
        18 => LOOP_C,
        19 => LOOP_AB,
        20 => LOOP_AC,
        21 => LOOP_BC,
        22 => LOOP_ABC,
        23 => SET_A,
        24 => SET_B,
        25 => SET_C,
        26 => ADD_A,
        27 => ADD_B,
        28 => ADD_C,
        29 => SUB_A,
        30 => SUB_B,
        31 => SUB_C,
        32 => SQRT,
        33 => ABS,
        34 => READ,
        35 => PCH,
        36 => START_TR,
        37 => STOP_TR,
        38 => ST_TR_ERAS,
        _ => NOOP,
    }
}

// What the row with this number is; behind the last nothing is built.
pub(crate) fn built_of(i: u16) -> Built
    ensures { result ≡ row_built i codes }
{
    if 39 < i {
        return None;
    }
    let row = row_at(i as usize);
    Some((row.1, row.2))
}

// The code of the row with this number.
pub(crate) fn code_at(i: usize) -> u64
    requires { i < 40 }
    ensures { result ≡ code_at i codes }
{
    row_at(i).0
}

// The first row with a code, and the one behind the last where the code is not built: a number, as the slots of an index have it.
fn row_of(code: u64) -> usize
    ensures { (result ≡ row_in code codes) × (result ≤ 40) }
{
    for i in 0..40 {
        if code_at(i) == code {
            return i;
        }
    }
    40
}

// What a code is.
pub fn look_up(code: u64) -> Built
    ensures { result ≡ lookup code codes }
{
    let i = row_of(code);
    if i < 40 {
        let row = row_at(i);
        return Some((row.1, row.2));
    }
    None
}

// The newsletter's name of a code.
pub fn name_of(code: u64) -> [u8; 10]
    ensures { result ≡ name_in code codes }
{
    let i = row_of(code);
    if i < 40 {
        return row_at(i).3;
    }
    *b"-         "
}
