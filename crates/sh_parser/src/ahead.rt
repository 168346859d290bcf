//! What comes next, as the grammar's table asks for it.

ghost use Rattle.std.specs.Prelude.{◌≡◌, ◌==◌, ◌||◌, ◌&&◌, not};
ghost use Rattle.sh_grammar.specs.Bytes as bytes_of;
ghost use Rattle.sh_grammar.specs.Tokens as tokens;
ghost use Rattle.sh_grammar.specs.State.{start_at};
ghost use Rattle.sh_grammar.specs.Steps as steps;
ghost use Rattle.sh_parser.specs.Tables as tables;

use crate::class::unit_starts;
use crate::gaps::clear;
use crate::keys::{
    Key, compound_next, copy_next, here_next, is_key, pipeline_next, redirect_next, simple_next,
};
use crate::leaves::{double_begins, escape_begins, expansion_begins, single_begins};
use crate::names::{assign_next, function_next, is_byte, tilde_next};
use crate::params::{brace_next, closed_next, filling_next, subst_next, sum_next};
use crate::table::{DollarTest, RedirectTest, Test, WordTest};
use crate::tokens::{Op, is_token, token};

/// Whether this comes next.
#[tactic(auto, unfolding(sh_grammar::specs::Steps::holds))]
#[inline(always)]
pub fn holds(test: Test, bytes: &[u8]) -> bool
    ensures { result ≡ steps.holds (tables.test test) (start_at 0 bytes.now) }
{
    match test {
        Test::Next(op) => is_token(op, bytes),
        Test::KeyNext(key) => is_key(key, bytes),
        Test::Separates => is_token(Op::Semi, bytes) || is_token(Op::Newline, bytes),
        Test::GoesOn => is_token(Op::Semi, bytes) && pipeline_next(token(bytes).1),
        Test::Links => is_token(Op::AndIf, bytes) || is_token(Op::OrIf, bytes),
        Test::PipelineBegins => pipeline_next(bytes),
        Test::CompoundBegins => compound_next(bytes),
        Test::FunctionBegins => function_next(bytes),
        Test::SimpleBegins => simple_next(bytes),
        Test::AssignBegins => assign_next(bytes),
        Test::PrefixBegins => redirect_next(bytes) || assign_next(bytes),
        Test::SuffixBegins => redirect_next(bytes) || is_token(Op::Word, bytes),
        Test::ItemBegins => item_begins(bytes),
        Test::Redirect(test) => redirect_holds(test, bytes),
        Test::Word(test) => word_holds(test, bytes),
        Test::Dollar(test) => dollar_holds(test, bytes),
    }
}

/// `(` or a word other than `esac`.
#[inline(always)]
fn item_begins(bytes: &[u8]) -> bool
    ensures { result ≡ (tokens.is_token tokens.Open bytes.now || (tokens.is_token tokens.Word bytes.now && not (tokens.is_key tokens.Esac bytes.now))) }
{
    is_token(Op::Open, bytes) || (is_token(Op::Word, bytes) && !is_key(Key::Esac, bytes))
}

#[tactic(auto, unfolding(sh_grammar::specs::Steps::holds))]
#[inline(always)]
fn redirect_holds(test: RedirectTest, bytes: &[u8]) -> bool
    ensures { result ≡ steps.holds (tables.redirect_test test) (start_at 0 bytes.now) }
{
    match test {
        RedirectTest::RedirectBegins => redirect_next(bytes),
        RedirectTest::HereBegins => here_next(bytes),
        RedirectTest::CopyBegins => copy_next(bytes),
    }
}

#[tactic(auto, unfolding(sh_grammar::specs::Steps::holds))]
#[inline(always)]
fn word_holds(test: WordTest, bytes: &[u8]) -> bool
    ensures { result ≡ steps.holds (tables.word_test test) (start_at 0 bytes.now) }
{
    match test {
        WordTest::TildeBegins => tilde_next(bytes),
        WordTest::UnitBegins(place) => unit_starts(place, clear(bytes)),
        WordTest::SingleBegins(place) => single_begins(place, bytes),
        WordTest::DoubleBegins(place) => double_begins(place, bytes),
        WordTest::EscapeBegins(place) => escape_begins(place, clear(bytes)),
    }
}

#[tactic(auto, unfolding(sh_grammar::specs::Steps::holds))]
#[inline(always)]
fn dollar_holds(test: DollarTest, bytes: &[u8]) -> bool
    ensures { result ≡ steps.holds (tables.dollar_test test) (start_at 0 bytes.now) }
{
    match test {
        DollarTest::ExpansionBegins => expansion_begins(clear(bytes)),
        DollarTest::SubstBegins => subst_next(bytes),
        DollarTest::BraceBegins => brace_next(bytes),
        DollarTest::ClosedBegins => closed_next(bytes),
        DollarTest::FillingBegins => filling_next(bytes),
        DollarTest::SumBegins => sum_next(bytes),
        DollarTest::SumGoesOn => sum_goes_on(bytes),
        DollarTest::SumOpens => is_byte(b'(', bytes),
    }
}

/// The bytes may go on: neither `)`, NUL nor the end comes next.
fn sum_goes_on(bytes: &[u8]) -> bool
    ensures { result ≡ (not (bytes_of.starts (λ b. b == 41) bytes.now || bytes_of.starts (λ b. b == 0) bytes.now) && not (steps.is_empty bytes.now)) }
{
    match bytes {
        [] => false,
        [b, ..] => !(*b == b')' || *b == 0),
    }
}
