//! What is expanded (POSIX XCU 2.6.2).

ghost use Rattle.std.specs.Prelude.{◌≡◌};
ghost use Rattle.sh_meaning.specs.Expanding as expanding;
ghost use Rattle.sh_syntax.specs.View.{view_param, view_test};

use sh_syntax::{FillTest, Param};

/// Whether `${a=w}` has another target than a name.
pub fn is_misassigned(test: FillTest, param: &Param) -> bool
    ensures { result ≡ expanding.is_misassigned (view_test test) (view_param param.now) }
{
    match test {
        FillTest::Default | FillTest::Alternate => false,
        FillTest::Assign => match param {
            Param::Name(_) => false,
            Param::Digits(_) | Param::Count | Param::Status | Param::At | Param::Star => true,
        },
    }
}
