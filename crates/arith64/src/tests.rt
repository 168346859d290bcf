use super::*;
use span_text::BinOp;
use std::test::Fail;

#[test]
fn constants_have_their_values(rt: HostRuntime) -> Result<(), Fail> {
    assert_eq!(rt; constant(b"0"), Some(0));
    assert_eq!(rt; constant(b"00"), Some(0));
    assert_eq!(rt; constant(b"-0"), Some(0));
    assert_eq!(rt; constant(b"12"), Some(12));
    assert_eq!(rt; constant(b"+12"), Some(12));
    assert_eq!(rt; constant(b"-12"), Some(-12));
    assert_eq!(rt; constant(b"017"), Some(15));
    assert_eq!(rt; constant(b"-017"), Some(-15));
    assert_eq!(rt; constant(b"0x1F"), Some(31));
    assert_eq!(rt; constant(b"0Xaf"), Some(175));
    assert_eq!(rt; constant(b"9223372036854775807"), Some(i64::MAX));
    assert_eq!(rt; constant(b"-9223372036854775808"), Some(i64::MIN));
    assert_eq!(rt; constant(b"0777777777777777777777"), Some(i64::MAX));
    assert_eq!(rt; constant(b"-0x8000000000000000"), Some(i64::MIN));
    Ok(())
}

#[test]
fn other_texts_are_no_constants(rt: HostRuntime) -> Result<(), Fail> {
    assert_eq!(rt; constant(b""), None);
    assert_eq!(rt; constant(b"-"), None);
    assert_eq!(rt; constant(b"+-1"), None);
    assert_eq!(rt; constant(b"08"), None);
    assert_eq!(rt; constant(b"0x"), None);
    assert_eq!(rt; constant(b"0xg"), None);
    assert_eq!(rt; constant(b"1a"), None);
    assert_eq!(rt; constant(b" 1"), None);
    assert_eq!(rt; constant(b"1 "), None);
    assert_eq!(rt; constant(b"10#1"), None);
    assert_eq!(rt; constant(b"9223372036854775808"), None);
    assert_eq!(rt; constant(b"-9223372036854775809"), None);
    assert_eq!(rt; constant(b"0x8000000000000000"), None);
    assert_eq!(rt; constant(b"18446744073709551617"), None);
    Ok(())
}

#[test]
fn operators_give_values_at_the_edges(rt: HostRuntime) -> Result<(), Fail> {
    assert_eq!(rt; apply(BinOp::Power, 3, 4), Ok(81));
    assert_eq!(rt; apply(BinOp::Power, 0, 0), Ok(1));
    assert_eq!(rt; apply(BinOp::Power, -1, i64::MAX), Ok(-1));
    assert_eq!(rt; apply(BinOp::Power, 2, 63), Ok(i64::MIN));
    assert_eq!(rt; apply(BinOp::Power, 3, 41), Ok(-420491770248316829));
    assert_eq!(rt; apply(BinOp::Power, 2, -1), Err(ArithFault::BadPower));
    assert_eq!(rt; apply(BinOp::Times, i64::MIN, -1), Ok(i64::MIN));
    assert_eq!(rt; apply(BinOp::Times, i64::MAX, 2), Ok(-2));
    assert_eq!(rt; apply(BinOp::Divide, -7, 2), Ok(-3));
    assert_eq!(rt; apply(BinOp::Divide, i64::MIN, -1), Ok(i64::MIN));
    assert_eq!(rt; apply(BinOp::Divide, 1, 0), Err(ArithFault::DivZero));
    assert_eq!(rt; apply(BinOp::Remainder, -7, 2), Ok(-1));
    assert_eq!(rt; apply(BinOp::Remainder, 7, -2), Ok(1));
    assert_eq!(rt; apply(BinOp::Remainder, i64::MIN, -1), Ok(0));
    assert_eq!(rt; apply(BinOp::Remainder, 1, 0), Err(ArithFault::DivZero));
    assert_eq!(rt; apply(BinOp::Add, i64::MAX, 1), Ok(i64::MIN));
    assert_eq!(rt; apply(BinOp::Subtract, i64::MIN, 1), Ok(i64::MAX));
    Ok(())
}

#[test]
fn shifts_comparisons_and_bits_give_values(rt: HostRuntime) -> Result<(), Fail> {
    assert_eq!(rt; apply(BinOp::ShiftLeft, 1, 63), Ok(i64::MIN));
    assert_eq!(rt; apply(BinOp::ShiftLeft, 3, 62), Ok(-4611686018427387904));
    assert_eq!(rt; apply(BinOp::ShiftLeft, 1, 64), Err(ArithFault::BadShift));
    assert_eq!(rt; apply(BinOp::ShiftLeft, 1, -1), Err(ArithFault::BadShift));
    assert_eq!(rt; apply(BinOp::ShiftRight, -5, 1), Ok(-3));
    assert_eq!(rt; apply(BinOp::ShiftRight, i64::MIN, 63), Ok(-1));
    assert_eq!(rt; apply(BinOp::ShiftRight, 1, 64), Err(ArithFault::BadShift));
    assert_eq!(rt; apply(BinOp::Less, -1, 0), Ok(1));
    assert_eq!(rt; apply(BinOp::Less, 0, 0), Ok(0));
    assert_eq!(rt; apply(BinOp::AtMost, 0, 0), Ok(1));
    assert_eq!(rt; apply(BinOp::Greater, 0, -1), Ok(1));
    assert_eq!(rt; apply(BinOp::AtLeast, -1, 0), Ok(0));
    assert_eq!(rt; apply(BinOp::Equal, 2, 2), Ok(1));
    assert_eq!(rt; apply(BinOp::Unequal, 2, 2), Ok(0));
    assert_eq!(rt; apply(BinOp::BitAnd, -1, 6), Ok(6));
    assert_eq!(rt; apply(BinOp::BitXor, -1, 6), Ok(-7));
    assert_eq!(rt; apply(BinOp::BitOr, -8, 6), Ok(-2));
    Ok(())
}
