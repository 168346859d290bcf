//! The marks between words, redirections and commands.

ghost use Rattle.std.specs.Prelude.{◌≡◌, ◌+◌};
ghost use Rattle.span_text.specs.declared.sign.Infix.TheVariants.{Plain};
ghost use Rattle.span_text.specs.Expressions.{level, left_level};
ghost use Rattle.sh_printer.specs.Codes.{view_end, end_before};
ghost use Rattle.sh_printing.specs.Marks.{loop_key, test_text, trim_mark, is_here};
ghost use Rattle.sh_printing.specs.Sums.{unary_text, binary_text, assigned_text, before_target, behind_target};
ghost use Rattle.sh_syntax.specs.View.{view_test, view_operator};

use sh_syntax::{FillTest, Joint, RedirectOp};
use span_text::{BinOp, StepOp, UnOp};

/// What ends a command: `|`, `&&`, `||`, `;`, or a newline.
#[derive(Clone, Copy, Debug, PartialEq, Eq)]
pub enum End {
    Piped,
    AndThen,
    OrElse,
    Next,
    Line,
}

pub fn joint_end(joint: Joint) -> End
    ensures { view_end result ≡ end_before joint }
{
    match joint {
        Joint::And => End::AndThen,
        Joint::Or => End::OrElse,
    }
}

pub fn loop_key(until: bool) -> &'static [u8]
    ensures { result.now ≡ loop_key until }
{
    if until { b"until " } else { b"while " }
}

pub fn test_mark(test: FillTest) -> &'static [u8]
    ensures { result.now ≡ test_text (view_test test) }
{
    match test {
        FillTest::Default => b"-",
        FillTest::Assign => b"=",
        FillTest::Alternate => b"+",
    }
}

pub fn trim_mark(suffix: bool, longest: bool) -> &'static [u8]
    ensures { result.now ≡ trim_mark suffix longest }
{
    match (suffix, longest) {
        (false, false) => b"#",
        (false, true) => b"##",
        (true, false) => b"%",
        (true, true) => b"%%",
    }
}

pub fn is_here(op: RedirectOp) -> bool
    ensures { result ≡ is_here (view_operator op) }
{
    match op {
        RedirectOp::HereLiteral | RedirectOp::HereExpanded => true,
        RedirectOp::Read
        | RedirectOp::Write
        | RedirectOp::Append
        | RedirectOp::CopyIn
        | RedirectOp::CopyOut => false,
    }
}

pub fn unary_mark(op: UnOp) -> &'static [u8]
    ensures { result.now ≡ unary_text op }
{
    match op {
        UnOp::Plus => b"+",
        UnOp::Minus => b"-",
        UnOp::Not => b"!",
        UnOp::Complement => b"~",
    }
}

pub fn binary_mark(op: BinOp) -> &'static [u8]
    ensures { result.now ≡ binary_text op }
{
    match op {
        BinOp::Power => b"**",
        BinOp::Times => b"*",
        BinOp::Divide => b"/",
        BinOp::Remainder => b"%",
        BinOp::Add => b"+",
        BinOp::Subtract => b"-",
        BinOp::ShiftLeft => b"<<",
        BinOp::ShiftRight => b">>",
        BinOp::Less => b"<",
        BinOp::AtMost => b"<=",
        BinOp::Greater => b">",
        BinOp::AtLeast => b">=",
        BinOp::Equal => b"==",
        BinOp::Unequal => b"!=",
        BinOp::BitAnd => b"&",
        BinOp::BitXor => b"^",
        BinOp::BitOr => b"|",
    }
}

pub fn binary_level(op: BinOp) -> u8
    ensures { result ≡ level (Plain op) }
{
    match op {
        BinOp::Power => 13,
        BinOp::Times | BinOp::Divide | BinOp::Remainder => 12,
        BinOp::Add | BinOp::Subtract => 11,
        BinOp::ShiftLeft | BinOp::ShiftRight => 10,
        BinOp::Less | BinOp::AtMost | BinOp::Greater | BinOp::AtLeast => 9,
        BinOp::Equal | BinOp::Unequal => 8,
        BinOp::BitAnd => 7,
        BinOp::BitXor => 6,
        BinOp::BitOr => 5,
    }
}

/// The level of what stands before the operator.
pub fn left_level(op: BinOp) -> u8
    ensures { result ≡ left_level (Plain op) }
{
    match op {
        BinOp::Power => 14,
        other => binary_level(other),
    }
}

pub fn before_target(op: StepOp) -> &'static [u8]
    ensures { result.now ≡ before_target op }
{
    match op {
        StepOp::PreAdd => b"++",
        StepOp::PreSub => b"--",
        StepOp::PostAdd | StepOp::PostSub => b"",
    }
}

pub fn behind_target(op: StepOp) -> &'static [u8]
    ensures { result.now ≡ behind_target op }
{
    match op {
        StepOp::PostAdd => b"++",
        StepOp::PostSub => b"--",
        StepOp::PreAdd | StepOp::PreSub => b"",
    }
}

/// `=`, `+=`
pub fn assigned_mark(op: Option<BinOp>) -> &'static [u8]
    ensures { result.now ≡ assigned_text op }
{
    match op {
        None => b"=",
        Some(BinOp::Power) => b"**=",
        Some(BinOp::Times) => b"*=",
        Some(BinOp::Divide) => b"/=",
        Some(BinOp::Remainder) => b"%=",
        Some(BinOp::Add) => b"+=",
        Some(BinOp::Subtract) => b"-=",
        Some(BinOp::ShiftLeft) => b"<<=",
        Some(BinOp::ShiftRight) => b">>=",
        Some(BinOp::Less) => b"<=",
        Some(BinOp::AtMost) => b"<==",
        Some(BinOp::Greater) => b">=",
        Some(BinOp::AtLeast) => b">==",
        Some(BinOp::Equal) => b"===",
        Some(BinOp::Unequal) => b"!==",
        Some(BinOp::BitAnd) => b"&=",
        Some(BinOp::BitXor) => b"^=",
        Some(BinOp::BitOr) => b"|=",
    }
}
