//! The table: rules whose bodies have a form of their own.

use super::*;
use bash_rules::{BranchRule, LineRule, OtherRule, PipeRule, RedirectRule, Rule, WordRule};
use std::test::Fail;

/// The forms of a body's items, a letter each.
fn forms(items: &[Item], shown: &mut Vec<u8>) -> Result<(), Fail> {
    for item in items {
        shown.push(match item {
            Item::One(_) => b'1',
            Item::If(_, _, _) => b'?',
            Item::Or(_, _, _, _, _) => b'|',
            Item::Star(_, _) => b'*',
            Item::Either(_, _) => b'/',
            Item::Both(_, _, _) => b'&',
            Item::Where(_) => b'+',
            Item::Only(_) => b'!',
        })?;
    }
    Ok(())
}

#[test]
fn each_form_stands_in_the_table(rt: HostRuntime) -> Result<(), Fail> {
    let table: [(Rule, &[u8]); 8] = [
        (Rule::Pipe(PipeRule::Chain), b"1*"),
        (Rule::Line(LineRule::Piece), b"/1?"),
        (Rule::Line(LineRule::MaybeList), b"1+1*"),
        (Rule::Branch(BranchRule::ItemEnd), b"&1"),
        (Rule::Other(OtherRule::CoprocRest), b"!?"),
        (Rule::Redirect(RedirectRule::Redirect), b"1|11"),
        (Rule::Word(WordRule::Part), b"111"),
        (Rule::KeyOperand, b"111"),
    ];
    for (rule, wanted) in table {
        let mut shown = Vec::new(rt.alloc());
        forms(body(rule), &mut shown)?;
        assert_eq!(rt; shown.as_slice(), wanted);
    }
    Ok(())
}
