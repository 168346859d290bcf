//! `break`, `continue`, `return` and `exit` (POSIX XCU 2.14).

ghost use Rattle.std.specs.Prelude.{◌≡◌, IfSome, ◌≤◌};
ghost use Rattle.sh_meaning.specs.builtins.Jumps as jumps;
ghost use Rattle.sh_builtins.specs.Views.{Changes, core_of, form_of, place_of};

use crate::environment::Environment;
use crate::flow::{Flow, Place, Stop};
use crate::form::{Form, are_written};
use crate::numbers::number;
use span_text::Text;

fn one_less(number: Option<u64>) -> Option<u64>
    ensures { result ≡ jumps.one_less number }
{
    match number {
        None | Some(0) => None,
        Some(count) => Some(count - 1),
    }
}

/// How many loops around the innermost one a jump says: its number is a literal decimal from 1 to the number of loops.
fn loops_around(place: Place, form: &Form, args: &[Text]) -> Option<u64>
    ensures { result ≡ jumps.loops_around (place_of place) (form_of form.now) args.now }
{
    match args {
        [] => {
            if are_written(form.words, 1, 0) && place.loops > 0 {
                Some(0)
            } else {
                None
            }
        }
        [text, more @ ..] => {
            if more.is_empty() && are_written(form.words, 1, 1) {
                one_less(number(place.loops, text.bytes()))
            } else {
                None
            }
        }
    }
}

/// `break [n]`: the status is 0. It is unspecified outside of loops, with a number that isn't a literal from 1 to the
/// number of loops, and with more arguments.
pub fn break_loops(
    place: Place,
    form: &Form,
    args: &[Text],
    env: &mut Environment,
) -> Result<Flow, Stop>
    ensures { Changes (jumps.break_run (place_of place) (form_of form.now) args.now (core_of env.old)) env.new result }
{
    match loops_around(place, form, args) {
        None => Err(Stop::Unspecified),
        Some(more) => {
            env.status = 0;
            Ok(Flow::Breaks(more))
        }
    }
}

/// `continue [n]`, as `break`.
pub fn continue_loop(
    place: Place,
    form: &Form,
    args: &[Text],
    env: &mut Environment,
) -> Result<Flow, Stop>
    ensures { Changes (jumps.continue_run (place_of place) (form_of form.now) args.now (core_of env.old)) env.new result }
{
    match loops_around(place, form, args) {
        None => Err(Stop::Unspecified),
        Some(more) => {
            env.status = 0;
            Ok(Flow::Continues(more))
        }
    }
}

/// The status that is left: that of the argument, a decimal number from 0 to 255, or the last one.
fn status_left(args: &[Text], last: u8) -> Option<u8>
    ensures { result ≡ jumps.status_left args.now last }
{
    match args {
        [] => Some(last),
        [text, more @ ..] => {
            if more.is_empty() {
                Some(number(255, text.bytes())? as u8)
            } else {
                None
            }
        }
    }
}

/// `exit [n]`. It is unspecified with an argument that is no decimal number from 0 to 255, and with more arguments.
pub fn exit(args: &[Text], env: &mut Environment) -> Result<Flow, Stop>
    ensures { Changes (jumps.exit_run args.now (core_of env.old)) env.new result }
{
    match status_left(args, env.status) {
        None => Err(Stop::Unspecified),
        Some(status) => {
            env.status = status;
            Ok(Flow::Exits)
        }
    }
}

/// `return [n]`, as `exit`, and unspecified where no function is to be left.
pub fn return_from(place: Place, args: &[Text], env: &mut Environment) -> Result<Flow, Stop>
    ensures { Changes (jumps.return_run (place_of place) args.now (core_of env.old)) env.new result }
{
    if !place.in_function {
        return Err(Stop::Unspecified);
    }
    match status_left(args, env.status) {
        None => Err(Stop::Unspecified),
        Some(status) => {
            env.status = status;
            Ok(Flow::Returns)
        }
    }
}
